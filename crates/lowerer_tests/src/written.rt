// The pieces of the term lowerer's defaults.
use crate::words::*;
use definitions::kinds::{Kind, Mark};
use diagnostics::list::ReportList;
use diagnostics::reports::{GenericArgsProhibitedReason, PathLoweringDiagnostic};
use generics::catalogue::Catalogue;
use lowerer::entry::Entry;
use lowerer::makings::GenericArgsLowerer;
use lowerer::meaning::{ParamPlace, Source};
use lowerers::terms::{LowererCtx, TermArg};
use path::args::{Form, GenericArg};
use pieces::Piece;
use std::process::Abort;
use std::test::Fail;

// How many pieces an entry has, if it has any.
fn count(lowerer: &LowererCtx, entry: &TermArg) -> Option<usize> {
    lowerer.pieces(entry).map(|pieces| pieces.len())
}

fn piece_at(lowerer: &LowererCtx, entry: &TermArg, i: usize) -> Option<Piece<TermArg>> {
    lowerer.pieces(entry)?.get(i).copied()
}

pub(crate) fn counts(
    rt: &impl Abort,
    lowerer: &LowererCtx,
    entry: &TermArg,
    pieces: Option<usize>,
) {
    assert_eq!(rt; count(lowerer, entry), pieces);
}

fn is_mark(rt: &impl Abort, piece: Option<Piece<TermArg>>, mark: Mark) -> Result<(), Fail> {
    match piece {
        Some(Piece::Mark(found)) => {
            assert_eq!(rt; found, mark);
            Ok(())
        },
        Some(Piece::Entry(_)) | None => Err(Fail::new("no mark there")),
    }
}

fn is_entry(piece: Option<Piece<TermArg>>) -> Result<TermArg, Fail> {
    match piece {
        Some(Piece::Entry(inner)) => Ok(inner),
        Some(Piece::Mark(_)) | None => Err(Fail::new("no entry there")),
    }
}

// The makings, without what they state.
fn inferred(
    lowerer: &mut LowererCtx,
    cat: &Catalogue,
    row: ParamPlace,
    before: &[TermArg],
) -> TermArg {
    lowerer.inferred_kind(cat, row, false, before)
}

fn parent(lowerer: &mut LowererCtx, cat: &Catalogue, row: ParamPlace) -> TermArg {
    lowerer.parent_arg(cat, row)
}

fn supplied(lowerer: &mut LowererCtx, cat: &Catalogue, handle: u32) -> TermArg {
    let arg = GenericArg {
        form: Form::Type,
        handle,
    };
    lowerer.provided_kind(cat, at(PLAIN, 0), arg)
}

// The pieces are `head 0` and an entry of this source.
fn is_head_and(
    rt: &impl Abort,
    lowerer: &LowererCtx,
    entry: &TermArg,
    source: Source,
) -> Result<(), Fail> {
    counts(rt, lowerer, entry, Some(2));
    is_mark(rt, piece_at(lowerer, entry, 0), Mark::Head(0))?;
    let inner = is_entry(piece_at(lowerer, entry, 1))?;
    is_meant(rt, inner.meaning(), Kind::Type, source);
    Ok(())
}

// Refs are replaced by the entries before, whatever those mean.
fn refs_replaced(rt: &impl Abort, lowerer: &mut LowererCtx, cat: &Catalogue) -> Result<(), Fail> {
    let first = supplied(lowerer, cat, 4);
    let default = inferred(lowerer, cat, at(REFERRING, 1), &[first]);
    is_meant(rt, default.meaning(), Kind::Type, Source::Default);
    is_head_and(rt, lowerer, &default, Source::Supplied(4))?;
    let first = parent(lowerer, cat, at(METHOD, 0));
    let default = inferred(lowerer, cat, at(METHOD, 1), &[first]);
    is_head_and(rt, lowerer, &default, Source::Parent)?;
    let first = inferred(lowerer, cat, at(ASSOCIATED, 0), &[]);
    let default = inferred(lowerer, cat, at(ASSOCIATED, 1), &[first]);
    is_head_and(rt, lowerer, &default, Source::Unknown)
}

// A default inside a default is one piece, which can be read in its turn.
fn defaults_in_defaults(
    rt: &impl Abort,
    lowerer: &mut LowererCtx,
    cat: &Catalogue,
) -> Result<(), Fail> {
    let first = inferred(lowerer, cat, at(NESTED, 0), &[]);
    let outer = inferred(lowerer, cat, at(NESTED, 1), &[first]);
    is_head_and(rt, lowerer, &outer, Source::Default)?;
    let inner = is_entry(piece_at(lowerer, &outer, 1))?;
    counts(rt, lowerer, &inner, Some(1));
    is_mark(rt, piece_at(lowerer, &inner, 0), Mark::Base(7))
}

#[test]
fn entries_in_pieces(rt: HostRuntime) -> Result<(), Fail> {
    let cat = stocked(&rt, rt.alloc())?;
    let mut store = [Piece::Mark(Mark::Base(0)); 64];
    let mut lowerer = LowererCtx::new(&mut store);
    refs_replaced(&rt, &mut lowerer, &cat)?;
    defaults_in_defaults(&rt, &mut lowerer, &cat)
}

// Later makings, tells and clears leave the pieces of an earlier default as they are.
fn pieces_stay(
    rt: &impl Abort,
    lowerer: &mut LowererCtx,
    cat: &Catalogue,
    early: &TermArg,
    late: &TermArg,
) -> Result<(), Fail> {
    let _ = parent(lowerer, cat, at(METHOD, 0));
    lowerer.tell(PathLoweringDiagnostic::GenericArgsProhibited {
        segment: 0,
        reason: GenericArgsProhibitedReason::TyParam,
    });
    is_head_and(rt, lowerer, early, Source::Supplied(4))?;
    lowerer.clear();
    is_head_and(rt, lowerer, early, Source::Supplied(4))?;
    for _ in 0..40u32 {
        let _ = inferred(lowerer, cat, at(DEFAULTED, 0), &[]);
    }
    is_head_and(rt, lowerer, early, Source::Supplied(4))?;
    is_head_and(rt, lowerer, late, Source::Supplied(5))?;
    has_stock(rt, lowerer, 0);
    Ok(())
}

#[test]
fn stay_readable(rt: HostRuntime) -> Result<(), Fail> {
    let cat = stocked(&rt, rt.alloc())?;
    let mut store = [Piece::Mark(Mark::Base(0)); 64];
    let mut lowerer = LowererCtx::new(&mut store);
    let first = supplied(&mut lowerer, &cat, 4);
    let early = inferred(&mut lowerer, &cat, at(REFERRING, 1), &[first]);
    let other = supplied(&mut lowerer, &cat, 5);
    let late = inferred(&mut lowerer, &cat, at(REFERRING, 1), &[other]);
    pieces_stay(&rt, &mut lowerer, &cat, &early, &late)
}

// Nothing but a default has pieces.
fn made_without(rt: &impl Abort, lowerer: &mut LowererCtx, cat: &Catalogue) {
    let infers = lowerer.inferred_kind(cat, at(DEFAULTED, 0), true, &[]);
    counts(rt, lowerer, &infers, None);
    let known = parent(lowerer, cat, at(DEFAULTED, 0));
    counts(rt, lowerer, &known, None);
    let stranger = parent(lowerer, cat, at(NEXT, 0));
    counts(rt, lowerer, &stranger, None);
}

fn handed_without(rt: &impl Abort, lowerer: &mut LowererCtx, cat: &Catalogue) {
    let provided = supplied(lowerer, cat, 4);
    counts(rt, lowerer, &provided, None);
    let constant = lowerer.provided_type_like_const(4);
    counts(rt, lowerer, &constant, None);
    let explicit = lowerer.explicit_arg(4);
    counts(rt, lowerer, &explicit, None);
    let elided = lowerer.elided_arg(4);
    counts(rt, lowerer, &elided, None);
}

// The longest default has 32 marks.
fn longest_default(
    rt: &impl Abort,
    lowerer: &mut LowererCtx,
    cat: &Catalogue,
) -> Result<TermArg, Fail> {
    let default = inferred(lowerer, cat, at(LONG, 0), &[]);
    counts(rt, lowerer, &default, Some(32));
    is_mark(rt, piece_at(lowerer, &default, 0), Mark::Head(1))?;
    for i in 1..32u32 {
        is_mark(rt, piece_at(lowerer, &default, i as usize), Mark::Base(i))?;
    }
    Ok(default)
}

// A lowerer has no pieces for another's default.
#[test]
fn lengths(rt: HostRuntime) -> Result<(), Fail> {
    let cat = stocked(&rt, rt.alloc())?;
    let mut store = [Piece::Mark(Mark::Region(9)); 64];
    let mut lowerer = LowererCtx::new(&mut store);
    made_without(&rt, &mut lowerer, &cat);
    handed_without(&rt, &mut lowerer, &cat);
    let _ = longest_default(&rt, &mut lowerer, &cat)?;
    let default = longest_default(&rt, &mut lowerer, &cat)?;
    let mut empty = [Piece::Mark(Mark::Base(0)); 64];
    counts(&rt, &LowererCtx::new(&mut empty), &default, None);
    Ok(())
}
