// Segments of a path, and what the path was resolved to.

// A segment's list: `len` of the arguments, from `start` on. With `has_self` the first of them is the Self type.
#[derive(Clone, Copy, PartialEq, Eq, Debug)]
pub struct GenericArgs {
    pub start: u32,
    pub len: u32,
    pub has_self: bool,
}

// A segment, with the list written behind it, if any.
#[derive(Clone, Copy, PartialEq, Eq, Debug)]
pub struct PathSegment {
    pub args: Option<GenericArgs>,
}

// What a path names.
#[derive(Clone, Copy, PartialEq, Eq, Debug)]
pub enum TypeNs {
    SelfType,
    AdtSelfType,
    GenericParam,
    BuiltinType,
    Module,
    Adt,
    EnumVariant,
    TypeAlias,
    Trait,
}

// What a path was resolved to, and the index of the first segment that is left over, if any is.
#[derive(Clone, Copy, PartialEq, Eq, Debug)]
pub struct Resolution {
    pub kind: TypeNs,
    pub remaining: Option<usize>,
}
