// Where a term ends, and where its slots end.
ghost use Rattle.std.specs.Prelude.{◌≡◌, ℕ, ◌<◌, ◌≤◌, map, length, MatchOption, slice_index_or};
ghost use Rattle.definitions.specs.declared.kinds.Kind.TheVariants.{Lifetime};
ghost use Rattle.definitions.specs.Definitions.{definition_at};
ghost use Rattle.generics.specs.Lays.{Spelled, definition_of, param_of};
ghost use Rattle.generics.specs.Held.{TermBy, SlotsBy, held, def_at, rows_at, row_kinds, scope_kinds};
ghost use Rattle.definitions.specs.Terms.{ReadsTerms, begins, is_term, slots_of};

use crate::catalogue::Catalogue;
use crate::stored::{Def, Row};
use definitions::kinds::{GenericDefKind, GenericParam, Kind, Mark};
use spans::Span;

// The places that a term may refer to: the parent's rows, then own rows.
#[derive(Clone, Copy)]
pub struct Scope<'a, 'b, 'c> {
    pub parent: &'a [Row],
    pub own: &'b [GenericParam<'c>],
}

// Reads terms: what they may name are the types of a catalogue and the places of a scope.
#[derive(Clone, Copy)]
pub struct TermReader<'a, 'b, 'c, 'd> {
    pub cat: &'a Catalogue,
    pub scope: Scope<'b, 'c, 'd>,
}

impl Scope<'_, '_, '_> {
    // The kind of a place, if there is such a place.
    pub fn kind_at(&self, place: u32) -> Option<Kind>
        ensures { MatchOption result (length (scope_kinds self.now) ≤ place) (λ k. (place < length (scope_kinds self.now)) × (k ≡ slice_index_or (scope_kinds self.now) place Lifetime)) }
    {
        let place = place as usize;
        match self.parent.get(place) {
            Some(row) => Some(row.kind.kind()),
            None => self
                .own
                .get(place - self.parent.len())
                .map(|row| row.kind.kind()),
        }
    }
}

impl Catalogue {
    // A definition as it is held; a function without rows where the number is not declared, as all rules read such
    // a number (`Generics::kind` tells whether it is declared).
    pub fn def_at(&self, def: u32) -> Def
        ensures stored { result ≡ def_at self.now def }
        ensures means { definition_of self.now.rows.items self.now.marks.items result ≡ definition_at (held self.now) def }
    {
        self.defs.get(def as usize).copied().unwrap_or(Def {
            kind: GenericDefKind::Function,
            parent: None,
            rows: Span { from: 0, len: 0 },
            body: None,
        })
    }

    // A definition's own rows; none where the number is not declared.
    pub fn own_rows(&self, def: u32) -> &[Row]
        ensures rows { result.now ≡ rows_at self.now def }
        ensures params { map (param_of self.now.marks.items) result.now ≡ (definition_at (held self.now) def).rows }
        ensures within { Spelled self.now.marks.items result.now }
    {
        self.def_at(def).rows.of(&self.rows)
    }

    // The rows for each of which a term follows a mark.
    fn slot_rows(&self, mark: Mark) -> &[Row]
        ensures { row_kinds result.now ≡ slots_of (held self.now) mark }
    {
        match mark {
            Mark::Head(def) => self.own_rows(def),
            _ => &[],
        }
    }
}

impl TermReader<'_, '_, '_, '_> {
    // Whether a mark may begin a term of the kind.
    fn may_begin(self, mark: Mark, kind: Kind) -> bool
        ensures { result ≡ begins (held self.entry.cat.now) (scope_kinds self.entry.scope) mark kind }
    {
        match mark {
            Mark::Ref(place) => self.scope.kind_at(place) == Some(kind),
            Mark::Head(def) => self.cat.def_at(def).kind.is_adt() && kind == Kind::Type,
            Mark::Base(_) => kind == Kind::Type,
            Mark::Value(_) => kind == Kind::Const,
            Mark::Region(_) => kind == Kind::Lifetime,
        }
    }

    // The end of the term of kind `kind` that begins at `pos`, if one does.
    #[cycle(slots_end_term_end)]
    pub fn term_end(self, marks: &[Mark], pos: usize, kind: Kind) -> Option<usize>
        ensures { MatchOption result ((e : ℕ) → TermBy self.entry marks.now pos e kind → ⊥) (λ e. TermBy self.entry marks.now pos e kind) }
    {
        let mark = *marks.get(pos)?;
        if !self.may_begin(mark, kind) {
            return None;
        }
        self.slots_end(marks, pos + 1, self.cat.slot_rows(mark))
    }

    // The end of the terms, one for each of `rows`, that begin at `pos` one behind another, if they are there.
    #[cycle(slots_end_term_end)]
    pub fn slots_end(self, marks: &[Mark], pos: usize, rows: &[Row]) -> Option<usize>
        ensures { MatchOption result ((e : ℕ) → SlotsBy self.entry marks.now pos e (row_kinds rows.now) → ⊥) (λ e. SlotsBy self.entry marks.now pos e (row_kinds rows.now)) }
    {
        match rows {
            [] => Some(pos),
            [first, rest @ ..] => {
                let next = self.term_end(marks, pos, first.kind.kind())?;
                self.slots_end(marks, next, rest)
            }
        }
    }

    // Whether the marks are one term of the kind. The test that says so is the relation that the ends are found by.
    pub fn is_term(self, marks: &[Mark], kind: Kind) -> bool
        ensures relation { ReadsTerms }
        ensures test { result ≡ is_term (held self.entry.cat.now) (scope_kinds self.entry.scope) kind marks.now }
    {
        marks.len() <= 32 && self.term_end(marks, 0, kind) == Some(marks.len())
    }
}
