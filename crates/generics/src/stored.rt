// How the catalogue holds definitions: rows and marks lie one behind another in two lists.
use definitions::kinds::{GenericDefKind, RowKind};
use spans::Span;

// A row, with the part of the marks that is its default. It is `GenericParam` but for that; one generic struct of both
// would put what only the catalogue can read into what callers write.
#[derive(Clone, Copy)]
pub struct Row {
    pub kind: RowKind,
    pub default: Option<Span>,
}

// A definition: its rows are a part of the catalogue's rows, its body a part of the marks.
#[derive(Clone, Copy)]
pub struct Def {
    pub kind: GenericDefKind,
    pub parent: Option<u32>,
    pub rows: Span,
    pub body: Option<Span>,
}
