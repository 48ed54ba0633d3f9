// Lowerers borrow no catalogue, and entries no lowerer.
use crate::words::*;
use definitions::kinds::{GenericDefKind, Kind, Mark};
use generics::catalogue::Catalogue;
use lowerer::entry::Entry;
use lowerer::makings::GenericArgsLowerer;
use lowerer::meaning::Source;
use lowerers::terms::{LowererCtx, TermArg};
use lowerers::variables::{VariableArg, VariableLowerer};
use pieces::Piece;
use std::alloc::Global;
use std::process::Abort;
use std::test::Fail;

// Makes entries of a type `C` before and after it is declared, and defaults of another type.
fn around<L: GenericArgsLowerer>(
    rt: &impl Abort,
    heap: Global,
    lowerer: &mut L,
    cat: &mut Catalogue,
) -> Result<(), Fail>
where
    L::Arg: Entry,
{
    let early = lowerer.parent_arg(cat, at(NEXT, 0));
    let default = lowerer.inferred_kind(cat, at(DEFAULTED, 0), false, &[]);
    assert_eq!(rt;
        declared(heap, cat, GenericDefKind::Adt, None, b"C")?,
        Ok(NEXT)
    );
    let late = lowerer.parent_arg(cat, at(NEXT, 0));
    let again = lowerer.inferred_kind(cat, at(DEFAULTED, 0), false, &[]);
    is_meant(rt, early.meaning(), Kind::Type, Source::Unknown);
    is_meant(rt, late.meaning(), Kind::Const, Source::Parent);
    is_meant(rt, default.meaning(), Kind::Type, Source::Default);
    is_meant(rt, again.meaning(), Kind::Type, Source::Default);
    Ok(())
}

#[test]
fn declaring_between(rt: HostRuntime) -> Result<(), Fail> {
    let mut cat = stocked(&rt, rt.alloc())?;
    let mut store = [Piece::Mark(Mark::Base(0)); 64];
    around(&rt, rt.alloc(), &mut LowererCtx::new(&mut store), &mut cat)?;
    let mut other = stocked(&rt, rt.alloc())?;
    around(&rt, rt.alloc(), &mut VariableLowerer::new(), &mut other)
}

fn term_of(cat: &Catalogue) -> TermArg {
    let mut store = [Piece::Mark(Mark::Base(0)); 32];
    let mut lowerer = LowererCtx::new(&mut store);
    lowerer.inferred_kind(cat, at(DEFAULTED, 0), false, &[])
}

fn variable_of(cat: &Catalogue) -> VariableArg {
    let mut lowerer = VariableLowerer::new();
    lowerer.parent_arg(cat, at(DEFAULTED, 0))
}

// Entries mean the same when lowerer, store and catalogue are gone.
fn left_over(rt: &impl Abort, heap: Global) -> Result<(TermArg, VariableArg), Fail> {
    let cat = stocked(rt, heap)?;
    Ok((term_of(&cat), variable_of(&cat)))
}

#[test]
fn entries_outlive(rt: HostRuntime) -> Result<(), Fail> {
    let (term, variable) = left_over(&rt, rt.alloc())?;
    is_meant(&rt, term.meaning(), Kind::Type, Source::Default);
    is_meant(&rt, variable.meaning(), Kind::Type, Source::Parent);
    assert_eq!(rt; variable.variable(), Some(0));
    Ok(())
}
