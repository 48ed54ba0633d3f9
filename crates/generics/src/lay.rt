// Rows and marks laid behind those that are there. Each function asks for room for what it lays itself; a struct of
// rows and marks would be taken apart at once, so the lists are parameters.
ghost use Rattle.std.specs.Prelude.{◌≡◌, ◌+◌, ◌≤◌, ◌++◌, length, vec_len, vec_capacity};
ghost use Rattle.std.specs.Option.{option_map};
ghost use Rattle.definitions.specs.Definitions.{default_marks, marks_in};
ghost use Rattle.generics.specs.Laid.{flat, laid, marks_of, span_at};
ghost use Rattle.generics.specs.Lays.{params_asked};

use crate::stored::Row;
use definitions::kinds::{GenericParam, Mark};
use spans::Span;

// Appends marks, for which memory is reserved, and answers the part that they are.
fn lay_marks(marks: &mut Vec<Mark>, new: &[Mark]) -> Span
    requires { vec_len marks.old + length new.now ≤ vec_capacity marks.old }
    ensures items { marks.new.items ≡ marks.old.items ++ new.now }
    ensures capacity { vec_capacity marks.new ≡ vec_capacity marks.old }
    ensures from { result.from ≡ vec_len marks.old }
    ensures size { result.len ≡ length new.now }
    ensures len { vec_len marks.new ≡ vec_len marks.old + length new.now }
{
    let from = marks.len();
    for mark in new {
        marks.push_reserved(*mark);
    }
    Span {
        from,
        len: new.len(),
    }
}

// The same for a default or a body, if there is one. No `map`: its closure would not know that there is room.
pub(crate) fn lay_term(marks: &mut Vec<Mark>, new: Option<&[Mark]>) -> Option<Span>
    requires { vec_len marks.old + marks_in (option_map (λ x. x.now) new) ≤ vec_capacity marks.old }
    ensures items { marks.new.items ≡ marks.old.items ++ marks_of (option_map (λ x. x.now) new.entry) }
    ensures capacity { vec_capacity marks.new ≡ vec_capacity marks.old }
    ensures len { vec_len marks.new ≡ vec_len marks.old + marks_in (option_map (λ x. x.now) new.entry) }
    ensures span { result ≡ span_at (vec_len marks.old) (option_map (λ x. x.now) new.entry) }
{
    match new {
        Some(new) => Some(lay_marks(marks, new)),
        None => None,
    }
}

// Appends rows and the marks of their defaults, for which memory is reserved.
pub(crate) fn lay_rows(rows: &mut Vec<Row>, marks: &mut Vec<Mark>, new: &[GenericParam])
    requires rows { vec_len rows.old + length new.now ≤ vec_capacity rows.old }
    requires marks { vec_len marks.old + default_marks (params_asked new.now) ≤ vec_capacity marks.old }
    ensures rows { rows.new.items ≡ rows.old.items ++ laid (vec_len marks.old) (params_asked new.now) }
    ensures marks { marks.new.items ≡ marks.old.items ++ flat (params_asked new.now) }
    ensures marks_len { vec_len marks.new ≡ vec_len marks.old + default_marks (params_asked new.now) }
    ensures rows_capacity { vec_capacity rows.new ≡ vec_capacity rows.old }
    ensures marks_capacity { vec_capacity marks.new ≡ vec_capacity marks.old }
{
    for row in new {
        let default = lay_term(marks, row.default);
        rows.push_reserved(Row {
            kind: row.kind,
            default,
        });
    }
}
