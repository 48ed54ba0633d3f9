// Rows that are none of the catalogue's, and entries that do not fill the places before a row.
use crate::words::*;
use definitions::kinds::{Kind, Mark};
use diagnostics::list::ReportList;
use generics::catalogue::Catalogue;
use lowerer::entry::Entry;
use lowerer::makings::GenericArgsLowerer;
use lowerer::meaning::{Meaning, ParamPlace, Source};
use lowerers::terms::LowererCtx;
use lowerers::variables::VariableLowerer;
use path::args::GenericArg;
use pieces::Piece;
use std::alloc::Global;
use std::process::Abort;
use std::test::Fail;

// Places past the whole list, and definitions that are not declared.
const STRANGERS: [(u32, usize); 8] = [
    (PLAIN, 1),
    (TRAIT, 6),
    (FUNCTION, 12),
    (FUNCTION, usize::MAX),
    (NEXT, 0),
    (NEXT, 4),
    (u32::MAX, 0),
    (u32::MAX, usize::MAX),
];

pub(crate) fn stranger_as<L: GenericArgsLowerer>(
    rt: &impl Abort,
    lowerer: &mut L,
    cat: &Catalogue,
    row: ParamPlace,
    whole: &[L::Arg],
)
where
    L::Arg: Entry,
{
    for form in FORMS {
        let provided = lowerer.provided_kind(cat, row, GenericArg { form, handle: 1 });
        made_as(rt, lowerer, provided, Kind::Type, Source::Unknown);
    }
    for infer in [false, true] {
        let with_all = lowerer.inferred_kind(cat, row, infer, whole);
        made_as(rt, lowerer, with_all, Kind::Type, Source::Unknown);
        let with_none = lowerer.inferred_kind(cat, row, infer, &[]);
        made_as(rt, lowerer, with_none, Kind::Type, Source::Unknown);
    }
    let parent = lowerer.parent_arg(cat, row);
    made_as(rt, lowerer, parent, Kind::Type, Source::Unknown);
}

fn strangers_as<L: GenericArgsLowerer>(
    rt: &impl Abort,
    heap: Global,
    lowerer: &mut L,
    cat: &Catalogue,
) -> Result<(), Fail>
where
    L::Arg: Entry,
{
    let whole = filled(heap, lowerer, b"TLTCTCLTCTCT")?;
    for (def, place) in &STRANGERS {
        stranger_as(rt, lowerer, cat, at(*def, *place), &whole);
    }
    Ok(())
}

#[test]
fn strangers(rt: HostRuntime) -> Result<(), Fail> {
    let cat = stocked(&rt, rt.alloc())?;
    let mut store = [Piece::Mark(Mark::Base(0)); 32];
    let mut terms = LowererCtx::new(&mut store);
    strangers_as(&rt, rt.alloc(), &mut terms, &cat)?;
    has_stock(&rt, &terms, 1);
    strangers_as(&rt, rt.alloc(), &mut VariableLowerer::new(), &cat)
}

fn has_source(rt: &impl Abort, found: Meaning, source: Source) {
    assert_eq!(rt; found.source, source);
}

// A row with a default, the kinds of the entries handed along, and whether they fill the places before it.
const FILLS: [(u32, usize, &[u8], bool); 22] = [
    // `S L T C` before the type row of the trait
    (TRAIT, 4, b"TLTC", true),
    (TRAIT, 4, b"", false),
    (TRAIT, 4, b"TLT", false),
    (TRAIT, 4, b"LTC", false),
    (TRAIT, 4, b"TLTCT", false),
    (TRAIT, 4, b"TLTCTC", false),
    (TRAIT, 4, b"LLTC", false),
    (TRAIT, 4, b"TTTC", false),
    (TRAIT, 4, b"TLCC", false),
    (TRAIT, 4, b"TLTL", false),
    (TRAIT, 4, b"TLCT", false),
    // the same place of the function
    (FUNCTION, 4, b"TLTC", true),
    (FUNCTION, 4, b"LTC", false),
    // the parent's places come before the own `L T C` of the function
    (FUNCTION, 9, b"TLTCTCLTC", true),
    (FUNCTION, 9, b"LTC", false),
    (FUNCTION, 9, b"TLTCTC", false),
    (FUNCTION, 9, b"LTCTLTCTC", false),
    (FUNCTION, 9, b"TLTCTCLTCT", false),
    (FUNCTION, 10, b"TLTCTCLTCT", true),
    (FUNCTION, 10, b"TLTCTCLTCC", false),
    // nothing comes before the row of the type
    (DEFAULTED, 0, b"", true),
    (DEFAULTED, 0, b"T", false),
];

fn fills_as<L: GenericArgsLowerer>(
    rt: &impl Abort,
    heap: Global,
    lowerer: &mut L,
    cat: &Catalogue,
) -> Result<(), Fail>
where
    L::Arg: Entry,
{
    for (def, place, letters, fill) in &FILLS {
        let preceding = filled(heap, lowerer, letters)?;
        let entry = lowerer.inferred_kind(cat, at(*def, *place), false, &preceding);
        let source = if *fill {
            Source::Default
        } else {
            Source::Unknown
        };
        has_source(rt, entry.meaning(), source);
    }
    Ok(())
}

#[test]
fn filling(rt: HostRuntime) -> Result<(), Fail> {
    let cat = stocked(&rt, rt.alloc())?;
    let mut store = [Piece::Mark(Mark::Base(0)); 64];
    fills_as(&rt, rt.alloc(), &mut LowererCtx::new(&mut store), &cat)?;
    fills_as(&rt, rt.alloc(), &mut VariableLowerer::new(), &cat)
}

// The whole list of the function: parents, then own rows, each made with those before it.
fn whole_list<L: GenericArgsLowerer>(
    rt: &impl Abort,
    heap: Global,
    lowerer: &mut L,
    cat: &Catalogue,
) -> Result<(), Fail>
where
    L::Arg: Entry,
{
    let mut entries = Vec::new(heap);
    for place in 0..6 {
        let entry = lowerer.parent_arg(cat, at(FUNCTION, place));
        entries.push(entry)?;
    }
    for (place, source) in [
        (6, Source::Unknown),
        (7, Source::Unknown),
        (8, Source::Unknown),
        (9, Source::Default),
        (10, Source::Default),
        (11, Source::Unknown),
    ] {
        let entry = lowerer.inferred_kind(cat, at(FUNCTION, place), false, &entries);
        has_source(rt, entry.meaning(), source);
        entries.push(entry)?;
    }
    assert_eq!(rt; entries.len(), 12);
    Ok(())
}

// Entries of any source fill places, unknown ones and defaults too.
#[test]
fn any_source_fills(rt: HostRuntime) -> Result<(), Fail> {
    let cat = stocked(&rt, rt.alloc())?;
    let mut store = [Piece::Mark(Mark::Base(0)); 64];
    whole_list(&rt, rt.alloc(), &mut LowererCtx::new(&mut store), &cat)?;
    whole_list(&rt, rt.alloc(), &mut VariableLowerer::new(), &cat)
}
