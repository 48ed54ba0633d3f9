// The plain values that definitions are made of.
ghost use Rattle.std.specs.Prelude.{◌≡◌, None};

// What a definition is.
#[derive(Clone, Copy, PartialEq, Eq, Debug)]
pub enum GenericDefKind {
    Function,
    Adt,
    TypeAlias,
    Const,
    Trait,
    Impl,
}

// What a row, that is a declared parameter, is: `TraitSelf` is the Self row of a trait, `ImplTrait` the
// parameter that an `impl Trait` argument of a function stands for. Type and const rows are the named rows.
#[derive(Clone, Copy, PartialEq, Eq, Debug)]
pub enum RowKind {
    TraitSelf,
    Lifetime,
    Type,
    Const,
    ImplTrait,
}

// What a parameter takes.
#[derive(Clone, Copy, PartialEq, Eq, Debug)]
pub enum Kind {
    Lifetime,
    Type,
    Const,
}

// One step of a term, which is written with its head first: the parameter at a place, a declared type that is
// followed by one term for each of its rows, a base type, a constant's value, or a region (0 is 'static).
#[derive(Clone, Copy, PartialEq, Eq, Debug)]
pub enum Mark {
    Ref(u32),
    Head(u32),
    Base(u32),
    Value(u32),
    Region(u32),
}

// A row as it is declared, with the marks of its default.
#[derive(Clone, Copy)]
pub struct GenericParam<'a> {
    pub kind: RowKind,
    pub default: Option<&'a [Mark]>,
}

// A definition as it is declared.
#[derive(Clone, Copy)]
pub struct Declaration<'a, 'b, 'c> {
    pub kind: GenericDefKind,
    pub parent: Option<u32>,
    pub rows: &'a [GenericParam<'b>],
    pub body: Option<&'c [Mark]>,
}

impl<'a, 'b> Declaration<'a, 'b, 'static> {
    // A declaration without a body.
    pub fn bare(
        kind: GenericDefKind,
        parent: Option<u32>,
        rows: &'a [GenericParam<'b>],
    ) -> Declaration<'a, 'b, 'static>
        ensures kind { result.kind ≡ kind }
        ensures parent { result.parent ≡ parent }
        ensures rows { result.rows.now ≡ rows.now }
        ensures body { result.body ≡ None }
    {
        Declaration {
            kind,
            parent,
            rows,
            body: None,
        }
    }
}

// The name of a parameter: its definition, whether it is a lifetime, and its number among the definition's
// lifetimes, or among its other rows. A flag, since an enum of two cases with the same two fields would say no more.
#[derive(Clone, Copy, PartialEq, Eq, Debug)]
pub struct GenericParamId {
    pub def: u32,
    pub lifetime: bool,
    pub local: u32,
}
