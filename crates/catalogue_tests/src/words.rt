// Declarations in few words.
use definitions::kinds::{Declaration, GenericDefKind, GenericParam, Mark, RowKind};
use generics::catalogue::Catalogue;
use std::alloc::{AllocError, Global};

pub(crate) const BASE: &[Mark] = &[Mark::Base(7)];

pub(crate) const VALUE: &[Mark] = &[Mark::Value(30)];

pub(crate) const REGION: &[Mark] = &[Mark::Region(0)];

// A row without a default.
pub(crate) fn row(kind: RowKind) -> GenericParam<'static> {
    GenericParam {
        kind,
        default: None,
    }
}

// A row with a default.
pub(crate) fn row_or(kind: RowKind, marks: &[Mark]) -> GenericParam<'_> {
    GenericParam {
        kind,
        default: Some(marks),
    }
}

// The row that a letter stands for: S L T C I, and the small letter for one with a
// default of its kind; x and y are a const and a type row with a default of the other's kind.
pub(crate) fn row_of(letter: u8) -> GenericParam<'static> {
    match letter {
        b'S' => row(RowKind::TraitSelf),
        b's' => row_or(RowKind::TraitSelf, BASE),
        b'L' => row(RowKind::Lifetime),
        b'l' => row_or(RowKind::Lifetime, REGION),
        b'T' => row(RowKind::Type),
        b't' => row_or(RowKind::Type, BASE),
        b'C' => row(RowKind::Const),
        b'c' => row_or(RowKind::Const, VALUE),
        b'x' => row_or(RowKind::Const, BASE),
        b'y' => row_or(RowKind::Type, VALUE),
        b'i' => row_or(RowKind::ImplTrait, BASE),
        _ => row(RowKind::ImplTrait),
    }
}

pub(crate) fn rows_of(
    heap: Global,
    letters: &[u8],
) -> Result<Vec<GenericParam<'static>>, AllocError> {
    letters.iter().map(|letter| row_of(*letter)).collect(heap)
}

// What declaring answers: the number of the definition, or of the refusal.
pub(crate) fn answered(cat: &mut Catalogue, d: Declaration) -> Result<u32, u32> {
    cat.declare(d).map_err(u32::from)
}

// What declaring without a body answers.
pub(crate) fn tried(
    cat: &mut Catalogue,
    kind: GenericDefKind,
    parent: Option<u32>,
    rows: &[GenericParam],
) -> Result<u32, u32> {
    answered(cat, Declaration::bare(kind, parent, rows))
}

// What declaring with a body answers.
pub(crate) fn bodied(
    cat: &mut Catalogue,
    kind: GenericDefKind,
    parent: Option<u32>,
    rows: &[GenericParam],
    body: &[Mark],
) -> Result<u32, u32> {
    let d = Declaration {
        kind,
        parent,
        rows,
        body: Some(body),
    };
    answered(cat, d)
}

// The same for a type, and for an alias.
pub(crate) fn adt(cat: &mut Catalogue, rows: &[GenericParam]) -> Result<u32, u32> {
    tried(cat, GenericDefKind::Adt, None, rows)
}

pub(crate) fn alias(cat: &mut Catalogue, rows: &[GenericParam], body: &[Mark]) -> Result<u32, u32> {
    bodied(cat, GenericDefKind::TypeAlias, None, rows, body)
}
