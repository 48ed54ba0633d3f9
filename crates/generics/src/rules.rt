// Whether a declaration follows the rules.
ghost use Rattle.std.specs.Prelude.{◌≡◌, false, map, length};
ghost use Rattle.std.specs.Option.{option_map};
ghost use Rattle.definitions.specs.Definitions.{default_marks, kinds_of, marks_in, parent_rows};
ghost use Rattle.generics.specs.Held.{held, row_kinds, scope_kinds};
ghost use Rattle.generics.specs.Lays.{Spelled, asked, param_asked, param_of, params_asked};
ghost use Rattle.definitions.specs.Rules.{body_reads, default_reads, default_right, defaults_read, defaults_right, has_room, in_order, lessen, parent_right, rows_right, terms_right};
ghost use Rattle.definitions.specs.Terms.{is_term};

use crate::catalogue::Catalogue;
use crate::ranks::count_ranked;
use crate::stored::Row;
use crate::terms::{Scope, TermReader};
use definitions::kinds::{Declaration, GenericDefKind, GenericParam, Kind, Mark, RowKind};

// Whether no row stands behind one of a later rank.
fn rows_in_order(rows: &[GenericParam]) -> bool
    ensures { result ≡ in_order 0 (params_asked rows.now) }
{
    rows.is_sorted_by(|row, next| row.kind.rank() <= next.kind.rank())
}

// Whether there are at most 32 rows, in order, with Self and impl-trait rows only where the kind has them.
pub(crate) fn rows_fit(kind: GenericDefKind, rows: &[GenericParam]) -> bool
    ensures { result ≡ rows_right kind (params_asked rows.now) }
{
    if rows.len() > 32 {
        return false;
    }
    if !rows_in_order(rows) {
        return false;
    }
    if count_ranked(rows, RowKind::TraitSelf.rank()) != kind.self_rows() {
        return false;
    }
    kind.is_function() || count_ranked(rows, RowKind::ImplTrait.rank()) == 0
}

// Whether a row has a default only if it is named, and, if it is named and one before it has a default, has one.
fn default_fits(row: GenericParam, seen: bool) -> bool
    ensures { result ≡ default_right seen (param_asked row.entry) }
{
    let named = row.kind.is_named();
    match row.default {
        Some(_) => named,
        None => !(named && seen),
    }
}

// Whether only named rows have defaults, and every named row behind one that has a default. One walk with what was seen,
// as the definition goes; by std's methods it would be two.
pub(crate) fn defaults_fit(rows: &[GenericParam]) -> bool
    ensures { result ≡ defaults_right false (params_asked rows.now) }
{
    let mut seen = false;
    for row in rows {
        if !default_fits(*row, seen) {
            return false;
        }
        seen = seen || row.default.is_some();
    }
    true
}

// How many marks a default or a body has.
fn marks_in(marks: Option<&[Mark]>) -> usize
    ensures { result ≡ marks_in (option_map (λ x. x.now) marks.entry) }
{
    marks.map_or(0, |marks| marks.len())
}

// What is left of `left` places when the defaults have taken theirs, if they are enough.
fn left_by_defaults(rows: &[GenericParam], left: usize) -> Option<usize>
    ensures { result ≡ lessen left (default_marks (params_asked rows.now)) }
{
    let mut free = left;
    for row in rows {
        free = free.checked_sub(marks_in(row.default))?;
    }
    Some(free)
}

impl TermReader<'_, '_, '_, '_> {
    // Whether a row's default, if it has one, is a term of the row's kind.
    fn default_is_term(self, row: GenericParam) -> bool
        ensures { result ≡ default_reads (held self.entry.cat.now) (scope_kinds self.entry.scope) (param_asked row.entry) (param_asked row.entry).default }
    {
        match row.default {
            Some(marks) => self.is_term(marks, row.kind.kind()),
            None => true,
        }
    }

    // Whether an alias, and nothing else, has a body, and the body is a type over the places of the scope.
    fn body_fits(self, kind: GenericDefKind, body: Option<&[Mark]>) -> bool
        ensures { result ≡ body_reads (held self.entry.cat.now) (scope_kinds self.entry.scope) kind (option_map (λ x. x.now) body.entry) }
    {
        match body {
            None => !kind.is_alias(),
            Some(marks) => kind.is_alias() && self.is_term(marks, Kind::Type),
        }
    }
}

impl Catalogue {
    // Whether a parent is named only where one may be, and is a declared trait or impl.
    pub(crate) fn parent_fits(&self, kind: GenericDefKind, parent: Option<u32>) -> bool
        ensures { result ≡ parent_right (held self.now) kind parent }
    {
        parent.is_none_or(|parent| {
            kind.may_have_parent() && self.def_at(parent).kind.may_be_parent()
        })
    }

    // The rows of a parent; none where there is no parent.
    pub fn parent_rows(&self, parent: Option<u32>) -> &[Row]
        ensures kinds { row_kinds result.now ≡ kinds_of (parent_rows (held self.now) parent) }
        ensures params { map (param_of self.now.marks.items) result.now ≡ parent_rows (held self.now) parent }
        ensures within { Spelled self.now.marks.items result.now }
    {
        parent.map_or(&[], |parent| self.own_rows(parent))
    }

    // Whether each default is a term of its row's kind over the places before it.
    fn defaults_are_terms(&self, parent: &[Row], rows: &[GenericParam]) -> bool
        ensures { result ≡ defaults_read (held self.now) (row_kinds parent.now) (params_asked rows.now) }
    {
        rows.iter().enumerate().all(|(i, row)| {
            let own = &rows[..i];
            let reader = TermReader {
                cat: self,
                scope: Scope { parent, own },
            };
            reader.default_is_term(*row)
        })
    }

    pub(crate) fn terms_fit(&self, d: Declaration) -> bool
        ensures { result ≡ terms_right (held self.now) (asked d.entry) }
    {
        let parent = self.parent_rows(d.parent);
        let reader = TermReader {
            cat: self,
            scope: Scope {
                parent,
                own: d.rows,
            },
        };
        self.defaults_are_terms(parent, d.rows) && reader.body_fits(d.kind, d.body)
    }

    // Whether the definition fits beside those that are held.
    pub(crate) fn has_room(&self, d: Declaration) -> bool
        ensures { result ≡ has_room (held self.now) (asked d.entry) }
    {
        let Some(left) = left_by_defaults(d.rows, 2048 - self.marks.len()) else {
            return false;
        };
        self.defs.len() < 64 && d.rows.len() <= 512 - self.rows.len() && marks_in(d.body) <= left
    }
}
