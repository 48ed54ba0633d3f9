// The reports of a lowerer beside what it makes.
use crate::plain::Plain;
use crate::words::*;
use definitions::kinds::Mark;
use diagnostics::list::ReportList;
use diagnostics::own::OwnReports;
use diagnostics::reports::{PathGenericsSource, PathLoweringDiagnostic};
use generics::catalogue::Catalogue;
use lowerer::makings::GenericArgsLowerer;
use lowerers::terms::LowererCtx;
use lowerers::variables::VariableLowerer;
use path::args::{Form, GenericArg};
use pieces::Piece;
use std::process::Abort;
use std::test::Fail;

fn missing(def: u32) -> PathLoweringDiagnostic {
    PathLoweringDiagnostic::MissingLifetime {
        generics_source: PathGenericsSource::Segment(2),
        def,
        expected_count: 1,
    }
}

fn shows<L: ReportList>(rt: &impl Abort, lowerer: &L, told: usize, room: usize) {
    assert_eq!(rt; [lowerer.told(), lowerer.room()], [told, room]);
}

fn reads<L: ReportList>(rt: &impl Abort, lowerer: &L, i: usize, def: u32) {
    assert_eq!(rt; lowerer.report(i), Some(missing(def)));
}

fn reads_none<L: ReportList>(rt: &impl Abort, lowerer: &L, i: usize) {
    assert_eq!(rt; lowerer.report(i), None);
}

// Tells 64 reports and one more, which does nothing.
fn told_as<L: ReportList>(rt: &impl Abort, lowerer: &mut L) {
    for def in 0..64u32 {
        shows(rt, lowerer, def as usize, (64 - def) as usize);
        lowerer.tell(missing(def));
    }
    lowerer.tell(missing(64));
    shows(rt, lowerer, 64, 0);
    for i in 0..64u32 {
        reads(rt, lowerer, i as usize, i);
    }
    reads_none(rt, lowerer, 64);
    reads_none(rt, lowerer, usize::MAX);
}

// Clear gives room back, and neither alters stock.
fn reports_as<L: ReportList>(rt: &impl Abort, lowerer: &mut L, stock: usize) {
    reads_none(rt, lowerer, 0);
    told_as(rt, lowerer);
    has_stock(rt, lowerer, stock);
    lowerer.clear();
    shows(rt, lowerer, 0, 64);
    reads_none(rt, lowerer, 0);
    lowerer.tell(missing(70));
    reads(rt, lowerer, 0, 70);
    shows(rt, lowerer, 1, 63);
    has_stock(rt, lowerer, stock);
}

#[test]
fn told_and_cleared(rt: HostRuntime) {
    let mut store = [Piece::Mark(Mark::Base(0)); 64];
    reports_as(&rt, &mut LowererCtx::new(&mut store), 2);
    reports_as(&rt, &mut VariableLowerer::new(), 256);
    let mut plain = Plain {
        reports: OwnReports::new(),
        stock: 5,
        spends: true,
    };
    reports_as(&rt, &mut plain, 5);
}

// Each making once, and inferred at a default and at none.
fn make_all<L: GenericArgsLowerer>(lowerer: &mut L, cat: &Catalogue) {
    let arg = GenericArg {
        form: Form::Constant,
        handle: 3,
    };
    let _ = lowerer.provided_kind(cat, at(PLAIN, 0), arg);
    let _ = lowerer.provided_type_like_const(1);
    let _ = lowerer.inferred_kind(cat, at(DEFAULTED, 0), false, &[]);
    let _ = lowerer.inferred_kind(cat, at(PLAIN, 0), true, &[]);
    let _ = lowerer.parent_arg(cat, at(FUNCTION, 0));
    let _ = lowerer.explicit_arg(1);
    let _ = lowerer.elided_arg(1);
}

fn untouched_by<L: GenericArgsLowerer>(rt: &impl Abort, lowerer: &mut L, cat: &Catalogue) {
    make_all(lowerer, cat);
    shows(rt, lowerer, 0, 64);
    lowerer.tell(missing(5));
    lowerer.tell(missing(6));
    make_all(lowerer, cat);
    shows(rt, lowerer, 2, 62);
    reads(rt, lowerer, 0, 5);
    reads(rt, lowerer, 1, 6);
    for def in 0..62u32 {
        lowerer.tell(missing(def));
    }
    make_all(lowerer, cat);
    shows(rt, lowerer, 64, 0);
    reads(rt, lowerer, 63, 61);
}

// Each round takes two variables, and one place of the store.
#[test]
fn makings_touch_none(rt: HostRuntime) -> Result<(), Fail> {
    let cat = stocked(&rt, rt.alloc())?;
    let mut store = [Piece::Mark(Mark::Base(0)); 66];
    let mut terms = LowererCtx::new(&mut store);
    untouched_by(&rt, &mut terms, &cat);
    has_stock(&rt, &terms, 1);
    let mut variables = VariableLowerer::new();
    untouched_by(&rt, &mut variables, &cat);
    has_stock(&rt, &variables, 250);
    Ok(())
}
