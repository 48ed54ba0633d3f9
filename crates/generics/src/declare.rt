// Declaring a definition.
ghost use Rattle.std.specs.Prelude.{◌≡◌, true, [], ◌∷◌, ◌++◌, length, IfOk};
ghost use Rattle.generics.specs.Declares.{Left, Ruled, answer, declares};
ghost use Rattle.generics.specs.Held.{held};
ghost use Rattle.generics.specs.Lays.{asked};
ghost use Rattle.definitions.specs.Follows.{AllRightful};
ghost use Rattle.definitions.specs.Rules.{Limited, follows, has_room};

use crate::catalogue::Catalogue;
use crate::lay::{lay_rows, lay_term};
pub use crate::refusal::DeclareRefusal;
use crate::rules::{defaults_fit, rows_fit};
use crate::stored::Def;
use definitions::kinds::{Declaration, Mark};
use spans::Span;
use std::alloc::{AllocError, Global};

impl Catalogue {
    // An empty catalogue, with the memory for all that it can hold.
    pub fn new(heap: Global) -> Result<Catalogue, AllocError>
        ensures { IfOk result (λ cat. held cat ≡ []) }
    {
        let defs = Vec::with_capacity(heap, 64)?;
        let rows = Vec::with_capacity(heap, 512)?;
        let marks = Vec::with_capacity(heap, 2048)?;
        Ok(Catalogue { defs, rows, marks })
    }

    // How many definitions are declared. No catalogue exists of which one breaks the rules, or that passes a limit.
    pub fn len(&self) -> usize
        ensures rightful { AllRightful (held self.now) }
        ensures limited { Limited (held self.now) }
        ensures count { result ≡ length (held self.now) }
    {
        self.defs.len()
    }

    // The marks of all defaults and bodies; a row or a definition holds a part of them.
    pub fn marks(&self) -> &[Mark]
        ensures { result.now ≡ self.now.marks.items }
    {
        self.marks.as_slice()
    }

    // Appends a definition that follows the rules and fits.
    fn append(&mut self, d: Declaration) -> u32
        requires follows { follows (held self.old) (asked d) ≡ true }
        requires fits { has_room (held self.old) (asked d) ≡ true }
        ensures number { result ≡ length (held self.old) }
        ensures held { held self.new ≡ held self.old ++ asked d.entry ∷ [] }
    {
        let number = self.len() as u32;
        let rows = Span {
            from: self.rows.len(),
            len: d.rows.len(),
        };
        lay_rows(&mut self.rows, &mut self.marks, d.rows);
        let body = lay_term(&mut self.marks, d.body);
        self.defs.push_reserved(Def {
            kind: d.kind,
            parent: d.parent,
            rows,
            body,
        });
        number
    }

    // Declares a definition and answers its number. The rules are tried in order.
    pub fn declare(&mut self, d: Declaration) -> Result<u32, DeclareRefusal>
        ensures answered { answer result ≡ declares (held self.old) (asked d.entry) }
        ensures ruled { Ruled (held self.old) (asked d.entry) result }
        ensures left { Left self.old (asked d.entry) result self.new }
    {
        if !self.parent_fits(d.kind, d.parent) {
            return Err(DeclareRefusal::Parent);
        }
        if !rows_fit(d.kind, d.rows) {
            return Err(DeclareRefusal::Rows);
        }
        if !defaults_fit(d.rows) {
            return Err(DeclareRefusal::Default);
        }
        if !self.terms_fit(d) {
            return Err(DeclareRefusal::Term);
        }
        if !self.has_room(d) {
            return Err(DeclareRefusal::Full);
        }
        Ok(self.append(d))
    }
}
