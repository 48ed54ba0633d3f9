// Catalogues, rows and meanings in few words.
use definitions::kinds::{Declaration, GenericDefKind, GenericParam, Kind, Mark, RowKind};
use diagnostics::list::ReportList;
use generics::catalogue::Catalogue;
use lowerer::entry::Entry;
use lowerer::makings::GenericArgsLowerer;
use lowerer::meaning::{Meaning, ParamPlace, Source};
use lowerers::terms::TermArg;
use path::args::Form;
use pieces::Piece;
use std::alloc::{AllocError, Global};
use std::process::Abort;
use std::test::Fail;

// The definitions of `stocked`, by number: type `T`, type with 31 rows `T`, trait `S L T C T= C=`, function
// `L T C T= C= I` in that trait, whose whole list is `S L T C T= C= L T C T= C= I`, and type `T=`.
pub(crate) const PLAIN: u32 = 0;

pub(crate) const TRAIT: u32 = 2;

pub(crate) const FUNCTION: u32 = 3;

pub(crate) const DEFAULTED: u32 = 4;

// Behind them: type `T T=` with the default `head 0, ref 0`, type `T= T=` whose second default is that one, trait
// `S T=` with that default, function `L` in it, and type `T=` with a default of 32 marks.
pub(crate) const REFERRING: u32 = 5;

pub(crate) const NESTED: u32 = 6;

pub(crate) const ASSOCIATED: u32 = 7;

pub(crate) const METHOD: u32 = 8;

pub(crate) const LONG: u32 = 9;

// None of them.
pub(crate) const NEXT: u32 = 10;

pub(crate) const FORMS: [Form; 5] = [
    Form::Lifetime,
    Form::Type,
    Form::Path,
    Form::Placeholder,
    Form::Constant,
];

type Letters = (GenericDefKind, Option<u32>, &'static [u8]);

const DEFINITIONS: [Letters; 10] = [
    (GenericDefKind::Adt, None, b"T"),
    (
        GenericDefKind::Adt,
        None,
        b"TTTTTTTTTTTTTTTTTTTTTTTTTTTTTTT",
    ),
    (GenericDefKind::Trait, None, b"SLTCtc"),
    (GenericDefKind::Function, Some(TRAIT), b"LTCtcI"),
    (GenericDefKind::Adt, None, b"t"),
    (GenericDefKind::Adt, None, b"Tr"),
    (GenericDefKind::Adt, None, b"tr"),
    (GenericDefKind::Trait, None, b"Sr"),
    (GenericDefKind::Function, Some(ASSOCIATED), b"L"),
    (GenericDefKind::Adt, None, b"w"),
];

// An impl with 32 rows, and a function with 32 rows in it, each with a default of 32 marks.
const LONGEST: [Letters; 4] = [
    (GenericDefKind::Adt, None, b"T"),
    (
        GenericDefKind::Adt,
        None,
        b"TTTTTTTTTTTTTTTTTTTTTTTTTTTTTTT",
    ),
    (
        GenericDefKind::Impl,
        None,
        b"wwwwwwwwwwwwwwwwwwwwwwwwwwwwwwww",
    ),
    (
        GenericDefKind::Function,
        Some(2),
        b"wwwwwwwwwwwwwwwwwwwwwwwwwwwwwwww",
    ),
];

const BASE: &[Mark] = &[Mark::Base(7)];

const VALUE: &[Mark] = &[Mark::Value(30)];

const REFERS: &[Mark] = &[Mark::Head(0), Mark::Ref(0)];

const WIDE: &[Mark] = &[
    Mark::Head(1),
    Mark::Base(1),
    Mark::Base(2),
    Mark::Base(3),
    Mark::Base(4),
    Mark::Base(5),
    Mark::Base(6),
    Mark::Base(7),
    Mark::Base(8),
    Mark::Base(9),
    Mark::Base(10),
    Mark::Base(11),
    Mark::Base(12),
    Mark::Base(13),
    Mark::Base(14),
    Mark::Base(15),
    Mark::Base(16),
    Mark::Base(17),
    Mark::Base(18),
    Mark::Base(19),
    Mark::Base(20),
    Mark::Base(21),
    Mark::Base(22),
    Mark::Base(23),
    Mark::Base(24),
    Mark::Base(25),
    Mark::Base(26),
    Mark::Base(27),
    Mark::Base(28),
    Mark::Base(29),
    Mark::Base(30),
    Mark::Base(31),
];

fn row(kind: RowKind, default: Option<&'static [Mark]>) -> GenericParam<'static> {
    GenericParam { kind, default }
}

// The row that a letter stands for: S L T C I, and for rows with defaults t `base 7`, c `value 30`, r `head 0, ref 0`,
// w `head 1` and its 31 slots.
fn row_of(letter: u8) -> GenericParam<'static> {
    match letter {
        b'S' => row(RowKind::TraitSelf, None),
        b'L' => row(RowKind::Lifetime, None),
        b'T' => row(RowKind::Type, None),
        b't' => row(RowKind::Type, Some(BASE)),
        b'r' => row(RowKind::Type, Some(REFERS)),
        b'w' => row(RowKind::Type, Some(WIDE)),
        b'C' => row(RowKind::Const, None),
        b'c' => row(RowKind::Const, Some(VALUE)),
        _ => row(RowKind::ImplTrait, None),
    }
}

// What declaring rows by their letters answers: the number of the definition, or of the refusal.
pub(crate) fn declared(
    heap: Global,
    cat: &mut Catalogue,
    kind: GenericDefKind,
    parent: Option<u32>,
    letters: &[u8],
) -> Result<Result<u32, u32>, AllocError> {
    let rows: Vec<GenericParam> = letters.iter().map(|letter| row_of(*letter)).collect(heap)?;
    let d = Declaration::bare(kind, parent, &rows);
    Ok(cat.declare(d).map_err(u32::from))
}

fn declare_all(
    rt: &impl Abort,
    heap: Global,
    cat: &mut Catalogue,
    definitions: &[Letters],
) -> Result<(), Fail> {
    for (kind, parent, letters) in definitions {
        let number = cat.len();
        match declared(heap, cat, *kind, *parent, letters)? {
            Ok(answer) => assert_eq!(rt; answer as usize, number),
            Err(_) => return Err(Fail::new("a definition is refused")),
        }
    }
    Ok(())
}

fn holding(rt: &impl Abort, heap: Global, definitions: &[Letters]) -> Result<Catalogue, Fail> {
    let mut cat = Catalogue::new(heap)?;
    declare_all(rt, heap, &mut cat, definitions)?;
    Ok(cat)
}

pub(crate) fn stocked(rt: &impl Abort, heap: Global) -> Result<Catalogue, Fail> {
    holding(rt, heap, &DEFINITIONS)
}

pub(crate) fn longest(rt: &impl Abort, heap: Global) -> Result<Catalogue, Fail> {
    holding(rt, heap, &LONGEST)
}

pub(crate) fn at(def: u32, place: usize) -> ParamPlace {
    ParamPlace { def, place }
}

// The checks stand in functions of their own: a call of one is proved in far less time than a check.
pub(crate) fn is_meant(rt: &impl Abort, found: Meaning, kind: Kind, source: Source) {
    assert_eq!(rt; found, Meaning { kind, source });
}

// What an entry means, and the kind that its lowerer says it is of.
pub(crate) fn made_as<L: GenericArgsLowerer>(
    rt: &impl Abort,
    lowerer: &L,
    entry: L::Arg,
    kind: Kind,
    source: Source,
)
where
    L::Arg: Entry,
{
    is_meant(rt, entry.meaning(), kind, source);
    assert_eq!(rt; lowerer.kind_of(&entry), kind);
}

pub(crate) fn has_stock<L: ReportList>(rt: &impl Abort, lowerer: &L, stock: usize) {
    assert_eq!(rt; lowerer.stock(), stock);
}

// Takes as much stock as parent takes for so many rows.
pub(crate) fn spend<L: GenericArgsLowerer>(lowerer: &mut L, cat: &Catalogue, count: u32) {
    for _ in 0..count {
        let _ = lowerer.parent_arg(cat, at(PLAIN, 0));
    }
}

// One entry for each letter, of kind lifetime, const or type.
pub(crate) fn filled<L: GenericArgsLowerer>(
    heap: Global,
    lowerer: &mut L,
    letters: &[u8],
) -> Result<Vec<L::Arg>, AllocError> {
    let mut entries = Vec::new(heap);
    for letter in letters {
        let entry = match *letter {
            b'L' => lowerer.elided_arg(3),
            b'C' => lowerer.provided_type_like_const(5),
            _ => lowerer.explicit_arg(4),
        };
        entries.push(entry)?;
    }
    Ok(entries)
}

// A store of so many places.
pub(crate) fn store_of(heap: Global, size: usize) -> Result<Vec<Piece<TermArg>>, AllocError> {
    Vec::from_elem(heap, Piece::Mark(Mark::Base(0)), size)
}
