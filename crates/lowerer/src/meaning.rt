// What an entry means.
ghost use Rattle.std.specs.Prelude.{◌≡◌};
ghost use Rattle.generics.specs.Held.{held};
ghost use Rattle.lowerer.specs.Meanings.{at_row, elided_as, explicit_as, provided_as, row_kind_at, type_like_as};

use crate::fit::Fit;
use definitions::kinds::{Kind, RowKind};
use generics::catalogue::Catalogue;
use path::args::GenericArg;
use places::view::Generics;

// Where an entry comes from: a written argument with its handle, the Self type that was handed over with its handle,
// the row's default, nowhere, the parent's own parameter, or elision with the region that it puts in. Nowhere is a
// source like the others: an entry is made for it and shows it.
#[derive(Clone, Copy, PartialEq, Eq, Debug)]
pub enum Source {
    Supplied(u32),
    Explicit(u32),
    Default,
    Unknown,
    Parent,
    Elided(u32),
}

// What an entry is of, and where it comes from.
#[derive(Clone, Copy, PartialEq, Eq, Debug)]
pub struct Meaning {
    pub kind: Kind,
    pub source: Source,
}

// A row, by its definition and its place in that definition's whole list. It is none of a catalogue's where the
// definition is not declared there or its whole list is not so long. It holds no catalogue, since entries keep rows
// where none is lent; so catalogue and row are two parameters.
#[derive(Clone, Copy, PartialEq, Eq, Debug)]
pub struct ParamPlace {
    pub def: u32,
    pub place: usize,
}

impl ParamPlace {
    // What the row is, if it is one of the catalogue's.
    pub fn row_kind(self, cat: &Catalogue) -> Option<RowKind>
        ensures { result ≡ row_kind_at (held cat.now) self }
    {
        Generics::of(cat, self.def).row_kind(self.place)
    }
}

impl Meaning {
    // Of a row's kind and from `source`; of kind type and unknown where the row is none of the catalogue's.
    pub fn at_row(cat: &Catalogue, row: ParamPlace, source: Source) -> Meaning
        ensures { result ≡ at_row (row_kind_at (held cat.now) row) source }
    {
        match row.row_kind(cat) {
            Some(kind) => Meaning {
                kind: kind.kind(),
                source,
            },
            None => Meaning {
                kind: Kind::Type,
                source: Source::Unknown,
            },
        }
    }

    // A written argument at a row: supplied if they agree, else unknown.
    pub fn provided(cat: &Catalogue, row: ParamPlace, arg: GenericArg) -> Meaning
        ensures { result ≡ provided_as (held cat.now) row arg }
    {
        let source = match row.row_kind(cat).and_then(|kind| Fit::of(arg.form, kind)) {
            Some(Fit::Agrees) => Source::Supplied(arg.handle),
            Some(Fit::TypeLikeConst) | None => Source::Unknown,
        };
        Meaning::at_row(cat, row, source)
    }

    // A path or a placeholder that stands for a constant.
    pub fn type_like_const(handle: u32) -> Meaning
        ensures { result ≡ type_like_as handle }
    {
        Meaning {
            kind: Kind::Const,
            source: Source::Supplied(handle),
        }
    }

    // A Self type that was handed over and not written.
    pub fn explicit(handle: u32) -> Meaning
        ensures { result ≡ explicit_as handle }
    {
        Meaning {
            kind: Kind::Type,
            source: Source::Explicit(handle),
        }
    }

    // A lifetime that was left out, with the region that stands for it.
    pub fn elided(region: u32) -> Meaning
        ensures { result ≡ elided_as region }
    {
        Meaning {
            kind: Kind::Lifetime,
            source: Source::Elided(region),
        }
    }
}
