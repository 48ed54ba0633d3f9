// The places of the term lowerer's store.
use crate::words::*;
use crate::written::counts;
use definitions::kinds::Kind;
use diagnostics::list::ReportList;
use diagnostics::reports::{GenericArgsProhibitedReason, PathLoweringDiagnostic};
use generics::catalogue::Catalogue;
use lowerer::entry::Entry;
use lowerer::makings::GenericArgsLowerer;
use lowerer::meaning::Source;
use lowerers::terms::LowererCtx;
use std::alloc::Global;
use std::process::Abort;
use std::test::Fail;

// Makes as many defaults as the stock says, of one row; the next is unknown and has no pieces.
fn drain(rt: &impl Abort, lowerer: &mut LowererCtx, cat: &Catalogue, def: u32, defaults: usize) {
    for _ in 0..defaults {
        let entry = lowerer.inferred_kind(cat, at(def, 0), false, &[]);
        is_meant(rt, entry.meaning(), Kind::Type, Source::Default);
    }
    has_stock(rt, lowerer, 0);
    let entry = lowerer.inferred_kind(cat, at(def, 0), false, &[]);
    is_meant(rt, entry.meaning(), Kind::Type, Source::Unknown);
    counts(rt, lowerer, &entry, None);
    has_stock(rt, lowerer, 0);
}

// The places of a store, and its stock, which is as many as there are defaults of 32 marks.
const SIZES: [(usize, usize); 9] = [
    (0, 0),
    (31, 0),
    (32, 1),
    (63, 1),
    (64, 2),
    (65_535, 2_047),
    (65_536, 2_048),
    (65_537, 2_048),
    (65_568, 2_048),
];

fn of_size(
    rt: &impl Abort,
    heap: Global,
    cat: &Catalogue,
    size: usize,
    stock: usize,
) -> Result<(), Fail> {
    let mut store = store_of(heap, size)?;
    let mut lowerer = LowererCtx::new(&mut store);
    has_stock(rt, &lowerer, stock);
    drain(rt, &mut lowerer, cat, LONG, stock);
    Ok(())
}

#[test]
fn sizes(rt: HostRuntime) -> Result<(), Fail> {
    let cat = stocked(&rt, rt.alloc())?;
    for (size, stock) in &SIZES {
        of_size(&rt, rt.alloc(), &cat, *size, *stock)?;
    }
    Ok(())
}

// A default of one mark takes one place; below 32 free places there is no stock.
#[test]
fn one_mark(rt: HostRuntime) -> Result<(), Fail> {
    let cat = stocked(&rt, rt.alloc())?;
    for (size, defaults) in [(31, 0), (32, 1), (33, 2), (63, 32), (96, 65)] {
        let mut store = store_of(rt.alloc(), size)?;
        drain(
            &rt,
            &mut LowererCtx::new(&mut store),
            &cat,
            DEFAULTED,
            defaults,
        );
    }
    Ok(())
}

fn on_segment(segment: u32) -> PathLoweringDiagnostic {
    PathLoweringDiagnostic::GenericArgsProhibited {
        segment,
        reason: GenericArgsProhibitedReason::Module,
    }
}

// Clear frees no places.
fn cleared(rt: &impl Abort, lowerer: &mut LowererCtx, cat: &Catalogue) {
    let _ = lowerer.inferred_kind(cat, at(DEFAULTED, 0), false, &[]);
    lowerer.tell(on_segment(1));
    lowerer.clear();
    has_stock(rt, lowerer, 1);
    drain(rt, lowerer, cat, DEFAULTED, 32);
    lowerer.tell(on_segment(2));
    lowerer.clear();
    drain(rt, lowerer, cat, DEFAULTED, 0);
}

#[test]
fn clear_frees_none(rt: HostRuntime) -> Result<(), Fail> {
    let cat = stocked(&rt, rt.alloc())?;
    let mut store = store_of(rt.alloc(), 64)?;
    cleared(&rt, &mut LowererCtx::new(&mut store), &cat);
    Ok(())
}

// Of the 64 places of definition 3, each made with those before it, the first become defaults.
fn list_made<L: GenericArgsLowerer>(
    rt: &impl Abort,
    heap: Global,
    lowerer: &mut L,
    cat: &Catalogue,
    defaults: usize,
) -> Result<(), Fail>
where
    L::Arg: Entry,
{
    let mut entries = Vec::new(heap);
    for place in 0..64 {
        let entry = lowerer.inferred_kind(cat, at(3, place), false, &entries);
        let source = if place < defaults {
            Source::Default
        } else {
            Source::Unknown
        };
        is_meant(rt, entry.meaning(), Kind::Type, source);
        entries.push(entry)?;
    }
    has_stock(rt, lowerer, 0);
    Ok(())
}

// A whole list of 64 rows with defaults of 32 marks needs 2,048 places.
#[test]
fn longest_list(rt: HostRuntime) -> Result<(), Fail> {
    let cat = longest(&rt, rt.alloc())?;
    for (size, defaults) in [(2048, 64), (2047, 63)] {
        let mut store = store_of(rt.alloc(), size)?;
        list_made(
            &rt,
            rt.alloc(),
            &mut LowererCtx::new(&mut store),
            &cat,
            defaults,
        )?;
    }
    Ok(())
}
