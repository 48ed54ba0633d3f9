// What each making means, at each row and for each argument.
use crate::plain::Plain;
use crate::rows::stranger_as;
use crate::words::*;
use definitions::kinds::{Kind, Mark};
use diagnostics::lent::LentReports;
use diagnostics::list::ReportList;
use diagnostics::own::OwnReports;
use diagnostics::reports::{GenericArgsProhibitedReason, PathLoweringDiagnostic};
use generics::catalogue::Catalogue;
use lowerer::entry::Entry;
use lowerer::makings::GenericArgsLowerer;
use lowerer::meaning::{Meaning, ParamPlace, Source};
use lowerers::lowering::Stocked;
use lowerers::terms::LowererCtx;
use lowerers::variables::VariableLowerer;
use nothing_written::entries_of;
use path::args::GenericArg;
use pieces::Piece;
use std::alloc::Global;
use std::process::Abort;
use std::test::Fail;

// A place of the function, its kind, and which of the forms agrees with it.
const AGREES: [(usize, Kind, [bool; 5]); 5] = [
    (0, Kind::Type, [false, true, true, true, false]),
    (1, Kind::Lifetime, [true, false, false, false, false]),
    (2, Kind::Type, [false, true, true, true, false]),
    (3, Kind::Const, [false, false, false, false, true]),
    (11, Kind::Type, [false, false, false, false, false]),
];

fn provided_at<L: GenericArgsLowerer>(
    rt: &impl Abort,
    lowerer: &mut L,
    cat: &Catalogue,
    place: usize,
    kind: Kind,
    agrees: &[bool],
)
where
    L::Arg: Entry,
{
    for (form, agree) in FORMS.iter().zip(agrees) {
        let arg = GenericArg {
            form: *form,
            handle: 41,
        };
        let entry = lowerer.provided_kind(cat, at(FUNCTION, place), arg);
        let source = if *agree {
            Source::Supplied(41)
        } else {
            Source::Unknown
        };
        made_as(rt, lowerer, entry, kind, source);
    }
}

fn provided_as<L: GenericArgsLowerer>(rt: &impl Abort, lowerer: &mut L, cat: &Catalogue)
where
    L::Arg: Entry,
{
    for (place, kind, agrees) in &AGREES {
        provided_at(rt, lowerer, cat, *place, *kind, agrees);
    }
}

// Handles and regions may be any number.
fn handed_as<L: GenericArgsLowerer>(rt: &impl Abort, lowerer: &mut L)
where
    L::Arg: Entry,
{
    for number in [0, 41, u32::MAX] {
        let constant = lowerer.provided_type_like_const(number);
        made_as(rt, lowerer, constant, Kind::Const, Source::Supplied(number));
        let explicit = lowerer.explicit_arg(number);
        made_as(rt, lowerer, explicit, Kind::Type, Source::Explicit(number));
        let elided = lowerer.elided_arg(number);
        made_as(rt, lowerer, elided, Kind::Lifetime, Source::Elided(number));
    }
}

// A place of the function, kinds that fill the places before it, its kind, and whether it has a default.
const PLACES: [(usize, &[u8], Kind, bool); 12] = [
    (0, b"", Kind::Type, false),
    (1, b"T", Kind::Lifetime, false),
    (2, b"TL", Kind::Type, false),
    (3, b"TLT", Kind::Const, false),
    (4, b"TLTC", Kind::Type, true),
    (5, b"TLTCT", Kind::Const, true),
    (6, b"TLTCTC", Kind::Lifetime, false),
    (7, b"TLTCTCL", Kind::Type, false),
    (8, b"TLTCTCLT", Kind::Const, false),
    (9, b"TLTCTCLTC", Kind::Type, true),
    (10, b"TLTCTCLTCT", Kind::Const, true),
    (11, b"TLTCTCLTCTC", Kind::Type, false),
];

fn inferred_at<L: GenericArgsLowerer>(
    rt: &impl Abort,
    lowerer: &mut L,
    cat: &Catalogue,
    row: ParamPlace,
    preceding: &[L::Arg],
    off: Meaning,
)
where
    L::Arg: Entry,
{
    let entry = lowerer.inferred_kind(cat, row, false, preceding);
    made_as(rt, lowerer, entry, off.kind, off.source);
    let entry = lowerer.inferred_kind(cat, row, true, preceding);
    made_as(rt, lowerer, entry, off.kind, Source::Unknown);
}

// Each row of the function; those with a default have the source `defaulted` with inference off.
fn inferred_as<L: GenericArgsLowerer>(
    rt: &impl Abort,
    heap: Global,
    lowerer: &mut L,
    cat: &Catalogue,
    defaulted: Source,
) -> Result<(), Fail>
where
    L::Arg: Entry,
{
    for (place, before, kind, default) in &PLACES {
        let preceding = filled(heap, lowerer, before)?;
        let source = if *default { defaulted } else { Source::Unknown };
        let off = Meaning {
            kind: *kind,
            source,
        };
        inferred_at(rt, lowerer, cat, at(FUNCTION, *place), &preceding, off);
    }
    Ok(())
}

// All rows of the function, made one after another by the library.
fn all_inferred<L: GenericArgsLowerer>(
    rt: &impl Abort,
    heap: Global,
    lowerer: &mut L,
    cat: &Catalogue,
) -> Result<(), Fail>
where
    L::Arg: Entry,
{
    let entries = entries_of(heap, cat, FUNCTION, lowerer)?;
    assert_eq!(rt; entries.len(), PLACES.len());
    for (entry, (_, _, kind, default)) in entries.iter().zip(&PLACES) {
        let source = if *default {
            Source::Default
        } else {
            Source::Unknown
        };
        is_meant(rt, entry.meaning(), *kind, source);
    }
    Ok(())
}

// Parent is answered at the function's own places too.
fn parents_as<L: GenericArgsLowerer>(
    rt: &impl Abort,
    lowerer: &mut L,
    cat: &Catalogue,
    source: Source,
)
where
    L::Arg: Entry,
{
    for (place, _, kind, _) in &PLACES {
        let entry = lowerer.parent_arg(cat, at(FUNCTION, *place));
        made_as(rt, lowerer, entry, *kind, source);
    }
}

fn handed_over<L: GenericArgsLowerer>(rt: &impl Abort, lowerer: &mut L, cat: &Catalogue)
where
    L::Arg: Entry,
{
    let stock = lowerer.stock();
    provided_as(rt, lowerer, cat);
    handed_as(rt, lowerer);
    has_stock(rt, lowerer, stock);
}

// At stock 0 inferred and parent are unknown of the row's kind, at rows with a default and at rows that are none of the
// catalogue's too, and the rest is as ever.
fn without_stock<L: GenericArgsLowerer>(
    rt: &impl Abort,
    heap: Global,
    lowerer: &mut L,
    cat: &Catalogue,
) -> Result<(), Fail>
where
    L::Arg: Entry,
{
    parents_as(rt, lowerer, cat, Source::Unknown);
    handed_over(rt, lowerer, cat);
    inferred_as(rt, heap, lowerer, cat, Source::Unknown)?;
    let entry = lowerer.inferred_kind(cat, at(DEFAULTED, 0), false, &[]);
    made_as(rt, lowerer, entry, Kind::Type, Source::Unknown);
    stranger_as(rt, lowerer, cat, at(NEXT, 0), &[]);
    has_stock(rt, lowerer, 0);
    Ok(())
}

#[test]
fn with_terms(rt: HostRuntime) -> Result<(), Fail> {
    let cat = stocked(&rt, rt.alloc())?;
    let mut store = [Piece::Mark(Mark::Base(0)); 35];
    let mut terms = LowererCtx::new(&mut store);
    handed_over(&rt, &mut terms, &cat);
    parents_as(&rt, &mut terms, &cat, Source::Parent);
    inferred_as(&rt, rt.alloc(), &mut terms, &cat, Source::Default)?;
    without_stock(&rt, rt.alloc(), &mut terms, &cat)
}

#[test]
fn with_variables(rt: HostRuntime) -> Result<(), Fail> {
    let cat = stocked(&rt, rt.alloc())?;
    let mut variables = VariableLowerer::new();
    handed_over(&rt, &mut variables, &cat);
    parents_as(&rt, &mut variables, &cat, Source::Parent);
    inferred_as(&rt, rt.alloc(), &mut variables, &cat, Source::Default)?;
    has_stock(&rt, &variables, 224);
    spend(&mut variables, &cat, 224);
    without_stock(&rt, rt.alloc(), &mut variables, &cat)
}

#[test]
fn one_after_another(rt: HostRuntime) -> Result<(), Fail> {
    let cat = stocked(&rt, rt.alloc())?;
    let mut store = [Piece::Mark(Mark::Base(0)); 384];
    all_inferred(&rt, rt.alloc(), &mut LowererCtx::new(&mut store), &cat)?;
    all_inferred(&rt, rt.alloc(), &mut VariableLowerer::new(), &cat)?;
    let none = entries_of(rt.alloc(), &cat, NEXT, &mut VariableLowerer::new())?;
    assert_eq!(rt; none.len(), 0);
    Ok(())
}

// With inference off and on at each of the twelve places, and parent at each.
const SPENDING: usize = 36;

// The makings of a lowerer of another make, with stock and without.
fn kept_by<R: ReportList>(
    rt: &impl Abort,
    heap: Global,
    cat: &Catalogue,
    reports: R,
    spends: bool,
) -> Result<(), Fail>
where
    R: Drop,
{
    let mut plain = Plain {
        reports,
        stock: SPENDING,
        spends,
    };
    handed_over(rt, &mut plain, cat);
    parents_as(rt, &mut plain, cat, Source::Parent);
    inferred_as(rt, heap, &mut plain, cat, Source::Default)?;
    has_stock(rt, &plain, if spends { 0 } else { SPENDING });
    plain.stock = 0;
    without_stock(rt, heap, &mut plain, cat)
}

// A lowerer of another make does the same: one that keeps nothing of its entries, over either report list, whose stock
// is lowered each time or never.
#[test]
fn with_others(rt: HostRuntime) -> Result<(), Fail> {
    let cat = stocked(&rt, rt.alloc())?;
    let unused = PathLoweringDiagnostic::GenericArgsProhibited {
        segment: 0,
        reason: GenericArgsProhibitedReason::Module,
    };
    for spends in [false, true] {
        kept_by(&rt, rt.alloc(), &cat, OwnReports::new(), spends)?;
        let mut places = [unused; 2];
        kept_by(&rt, rt.alloc(), &cat, LentReports::new(&mut places), spends)?;
    }
    Ok(())
}
