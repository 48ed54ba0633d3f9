// The parameters of one definition.
ghost use Rattle.std.specs.Prelude.{◌≡◌, length};
ghost use Rattle.std.specs.Option.{option_map};
ghost use Rattle.definitions.specs.Definitions.{kind_of, parent_rows, whole_rows};
ghost use Rattle.generics.specs.Lays.{param_of};
ghost use Rattle.places.specs.Places.{declared_at, default_of, name_at, param_at, provenance};
ghost use Rattle.places.specs.Views.{among, meant};

use crate::counts::{count_defaulted, name_in};
use definitions::kinds::{GenericDefKind, GenericParamId, Kind, Mark, RowKind};
use generics::catalogue::Catalogue;
use generics::ranks::count_ranked;
use generics::stored::Row;

// The parameters of the definition with this number, its parent's first; none where it is not declared. A place
// is a position among them.
#[derive(Clone, Copy)]
pub struct Generics<'a> {
    cat: &'a Catalogue,
    def: u32,
}

// How many rows the parent has, and how many own rows there are of each sort.
#[derive(Clone, Copy, PartialEq, Eq, Debug)]
pub struct Provenance {
    pub parent: usize,
    pub trait_self: usize,
    pub lifetimes: usize,
    // Type and const rows, and those of them that have a default.
    pub named: usize,
    pub defaulted: usize,
    pub impl_traits: usize,
}

impl<'a> Generics<'a> {
    pub fn of(cat: &'a Catalogue, def: u32) -> Generics<'a>
        ensures catalogue { result.cat.now ≡ cat.now }
        ensures definition { result.def ≡ def }
    {
        Generics { cat, def }
    }

    // What the definition is, if it is declared. No `then`: its proof did not close.
    pub fn kind(&self) -> Option<GenericDefKind>
        ensures { result ≡ option_map (λ d. d.kind) (declared_at (among self.now) self.now.def) }
    {
        if (self.def as usize) < self.cat.len() {
            Some(self.cat.def_at(self.def).kind)
        } else {
            None
        }
    }

    // Its parent, if it has one.
    pub fn parent(&self) -> Option<u32>
        ensures { result ≡ (meant self.now).parent }
    {
        self.cat.def_at(self.def).parent
    }

    // How many rows the parent has.
    pub fn len_parent(&self) -> usize
        ensures { result ≡ length (parent_rows (among self.now) (meant self.now).parent) }
    {
        self.cat.parent_rows(self.parent()).len()
    }

    // How many rows it has of its own.
    pub fn len_self(&self) -> usize
        ensures { result ≡ length (meant self.now).rows }
    {
        self.cat.own_rows(self.def).len()
    }

    // How many places the whole list has.
    pub fn len(&self) -> usize
        ensures { result ≡ length (whole_rows (among self.now) (meant self.now)) }
    {
        self.len_parent() + self.len_self()
    }

    // The row at a place, as it is held. The split is that of `Scope::kind_at`, over rows of another type and for the row
    // itself: one function for both would take two of each.
    fn row_held(&self, place: usize) -> Option<Row>
        ensures param { option_map (param_of self.now.cat.now.marks.items) result ≡ param_at (among self.now) self.now.def place }
    {
        let parent = self.cat.parent_rows(self.parent());
        let own = self.cat.own_rows(self.def);
        match parent.get(place) {
            Some(row) => Some(*row),
            None => own.get(place - parent.len()).copied(),
        }
    }

    // What the row at a place is.
    pub fn row_kind(&self, place: usize) -> Option<RowKind>
        ensures { result ≡ option_map (λ p. p.kind) (param_at (among self.now) self.now.def place) }
    {
        self.row_held(place).map(|row| row.kind)
    }

    // What the parameter at a place takes.
    pub fn kind_at(&self, place: usize) -> Option<Kind>
        ensures { result ≡ option_map (λ p. kind_of p.kind) (param_at (among self.now) self.now.def place) }
    {
        self.row_held(place).map(|row| row.kind.kind())
    }

    // The marks of the default at a place, a part of the catalogue's own, if it has one.
    pub fn default_at(&self, place: usize) -> Option<&'a [Mark]>
        ensures { option_map (λ x. x.now) result ≡ default_of (param_at (among self.now) self.now.def place) }
    {
        let span = self.row_held(place)?.default?;
        Some(span.of(self.cat.marks()))
    }

    // The marks of an alias's body; none for any other definition.
    pub fn body(&self) -> Option<&'a [Mark]>
        ensures { option_map (λ x. x.now) result ≡ (meant self.now).body }
    {
        let span = self.cat.def_at(self.def).body?;
        Some(span.of(self.cat.marks()))
    }

    // The name of the parameter at a place, if there is one.
    pub fn name_at(&self, place: usize) -> Option<GenericParamId>
        ensures { result ≡ name_at (among self.now) self.now.def place }
    {
        let own = self.cat.own_rows(self.def);
        match self.parent() {
            None => name_in(self.def, own, place),
            Some(parent) => {
                let before = self.cat.own_rows(parent);
                if place < before.len() {
                    name_in(parent, before, place)
                } else {
                    name_in(self.def, own, place - before.len())
                }
            }
        }
    }

    // How many rows the parent has, and how many own rows there are of each sort.
    pub fn provenance_split(&self) -> Provenance
        ensures { result ≡ provenance (among self.now) (meant self.now) }
    {
        let rows = self.cat.own_rows(self.def);
        Provenance {
            parent: self.len_parent(),
            trait_self: count_ranked(rows, RowKind::TraitSelf.rank()),
            lifetimes: count_ranked(rows, RowKind::Lifetime.rank()),
            // Types and constants rank alike.
            named: count_ranked(rows, RowKind::Type.rank()),
            defaulted: count_defaulted(rows),
            impl_traits: count_ranked(rows, RowKind::ImplTrait.rank()),
        }
    }
}
