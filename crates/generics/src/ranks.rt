// Rows counted by where they stand.
ghost use Rattle.std.specs.Prelude.{◌≡◌, map};
ghost use Rattle.definitions.specs.declared.kinds.RowKind.{RowKind};
ghost use Rattle.definitions.specs.Rules.{ranked};

use crate::stored::Row;
use definitions::kinds::{GenericParam, RowKind};

// What is a row, declared or held.
pub trait Ranked {
    ghost shown: { Self → RowKind };

    fn row_kind(&self) -> RowKind
        ensures { result ≡ shown self.now };
}

impl Ranked for Row {
    ghost shown = { λ r. r.kind };

    fn row_kind(&self) -> RowKind {
        self.kind
    }
}

impl<'a> Ranked for GenericParam<'a> {
    ghost shown = { λ r. r.kind };

    fn row_kind(&self) -> RowKind {
        self.kind
    }
}

// How many rows have the rank.
pub fn count_ranked<R: Ranked>(rows: &[R], rank: usize) -> usize
    ensures { result ≡ ranked rank (map R.Ranked.shown rows.now) }
{
    rows.iter()
        .filter(|row| row.row_kind().rank() == rank)
        .count()
}
