// What follows from a kind alone.
ghost use Rattle.std.specs.Prelude.{◌≡◌};
ghost use Rattle.definitions.specs.Definitions.{is_lifetime, kind_of};
ghost use Rattle.definitions.specs.Rules.{is_alias, is_function, is_named, may_be_parent, may_have_parent, selves_of};
ghost use Rattle.definitions.specs.Rules.{rank as rank_of};
ghost use Rattle.definitions.specs.Terms.{is_adt};

use crate::kinds::{GenericDefKind, Kind, RowKind};

impl GenericDefKind {
    // Whether definitions of this kind may stand in a trait or an impl.
    pub fn may_have_parent(self) -> bool
        ensures { result ≡ may_have_parent self }
    {
        matches!(
            self,
            GenericDefKind::Function | GenericDefKind::TypeAlias | GenericDefKind::Const
        )
    }

    pub fn may_be_parent(self) -> bool
        ensures { result ≡ may_be_parent self }
    {
        matches!(self, GenericDefKind::Trait | GenericDefKind::Impl)
    }

    // How many Self rows a definition of this kind has.
    pub fn self_rows(self) -> usize
        ensures { result ≡ selves_of self }
    {
        match self {
            GenericDefKind::Trait => 1,
            _ => 0,
        }
    }

    pub fn is_function(self) -> bool
        ensures { result ≡ is_function self }
    {
        matches!(self, GenericDefKind::Function)
    }

    pub fn is_adt(self) -> bool
        ensures { result ≡ is_adt self }
    {
        matches!(self, GenericDefKind::Adt)
    }

    pub fn is_alias(self) -> bool
        ensures { result ≡ is_alias self }
    {
        matches!(self, GenericDefKind::TypeAlias)
    }
}

impl RowKind {
    // What a row of this kind takes.
    pub fn kind(self) -> Kind
        ensures { result ≡ kind_of self }
    {
        match self {
            RowKind::Lifetime => Kind::Lifetime,
            RowKind::Const => Kind::Const,
            RowKind::TraitSelf | RowKind::Type | RowKind::ImplTrait => Kind::Type,
        }
    }

    // Where rows of this kind stand: Self, lifetimes, named rows, impl-trait rows. A number, since rows
    // are counted by any number: an enum would be a narrower type.
    pub fn rank(self) -> usize
        ensures { result ≡ rank_of self }
    {
        match self {
            RowKind::TraitSelf => 0,
            RowKind::Lifetime => 1,
            RowKind::Type | RowKind::Const => 2,
            RowKind::ImplTrait => 3,
        }
    }

    pub fn is_lifetime(self) -> bool
        ensures { result ≡ is_lifetime self }
    {
        matches!(self, RowKind::Lifetime)
    }

    // Whether rows of this kind may have a default.
    pub fn is_named(self) -> bool
        ensures { result ≡ is_named self }
    {
        matches!(self, RowKind::Type | RowKind::Const)
    }
}
