// What callers may conclude from the promises of each lowerer, as contracts of callers that are proved from them.
ghost use Rattle.std.specs.Prelude.{◌≡◌, List, false};
ghost use Rattle.std.specs.Option.{option_map};
ghost use Rattle.generics.specs.Held.{held};
ghost use Rattle.lowerer.specs.Meanings.{inferred_as, kinds_by};
ghost use Rattle.lowerers.specs.Entries.{default_made, meant_by};
ghost use Rattle.lowerers.specs.Numbers.{name_for, next_for, variable_view};
ghost use Rattle.lowerers.specs.Stores.{term_view, written_in, TermArg as Entry};
ghost use Rattle.pieces.specs.Pieces.{spelled_with};
ghost use Rattle.pieces.specs.declared.Piece.{Piece as PieceOf};

use crate::words::*;
use definitions::kinds::Mark;
use diagnostics::list::ReportList;
use generics::catalogue::Catalogue;
use lowerer::makings::GenericArgsLowerer;
use lowerer::meaning::ParamPlace;
use lowerers::terms::{LowererCtx, TermArg};
use lowerers::variables::{VariableArg, VariableLowerer};
use pieces::Piece;
use std::test::Fail;

// A default that was just made reads back as its marks, with entry p for ref p; what is no default has no pieces.
fn spelled<'a, 'b>(
    lowerer: &'b mut LowererCtx<'a>,
    cat: &Catalogue,
    row: ParamPlace,
    before: &[TermArg],
) -> Option<&'b [Piece<TermArg>]>
    ensures { option_map (λ x. x.now) result ≡ option_map (spelled_with before.now) (default_made (held cat.now) row false (kinds_by meant_by before.now) (term_view lowerer.old).stock) }
{
    let entry = lowerer.inferred_kind(cat, row, false, before);
    lowerer.pieces(&entry)
}

// The pieces of an entry are what they were after other makings and a clear.
fn spelled_later<'a, 'b>(
    lowerer: &'b mut LowererCtx<'a>,
    entry: &TermArg,
    cat: &Catalogue,
    row: ParamPlace,
    before: &[TermArg],
) -> Option<&'b [Piece<TermArg>]>
    ensures { (ps : List (PieceOf Entry)) → written_in lowerer.old.makes entry.now ≡ Some ps → option_map (λ x. x.now) result ≡ Some ps }
{
    let _ = lowerer.inferred_kind(cat, row, false, before);
    let _ = lowerer.parent_arg(cat, row);
    lowerer.clear();
    lowerer.pieces(entry)
}

// What inferred makes under inference has no pieces, though a default is written after it.
fn never_spelled<'a, 'b>(
    lowerer: &'b mut LowererCtx<'a>,
    cat: &Catalogue,
    unknown: ParamPlace,
    row: ParamPlace,
    before: &[TermArg],
) -> Option<&'b [Piece<TermArg>]>
    ensures { result ≡ None }
{
    let entry = lowerer.inferred_kind(cat, unknown, true, before);
    let _ = lowerer.inferred_kind(cat, row, false, before);
    lowerer.pieces(&entry)
}

// The variable of an entry that was just made: the next one, if it is unknown and one was left.
fn numbered(
    lowerer: &mut VariableLowerer,
    cat: &Catalogue,
    row: ParamPlace,
    infer: bool,
    before: &[VariableArg],
) -> Option<u32>
    ensures { result ≡ next_for lowerer.old.makes.taken (inferred_as (held cat.now) row infer (kinds_by meant_by before.now) (variable_view lowerer.old).stock).source }
{
    lowerer.inferred_kind(cat, row, infer, before).variable()
}

// The row of an entry that was just made, if the entry is its default.
fn named(
    lowerer: &mut VariableLowerer,
    cat: &Catalogue,
    row: ParamPlace,
    infer: bool,
    before: &[VariableArg],
) -> Option<ParamPlace>
    ensures { result ≡ name_for (inferred_as (held cat.now) row infer (kinds_by meant_by before.now) (variable_view lowerer.old).stock).source row }
{
    lowerer.inferred_kind(cat, row, infer, before).default_of()
}

fn count(pieces: Option<&[Piece<TermArg>]>) -> Option<usize> {
    pieces.map(|pieces| pieces.len())
}

#[test]
fn of_terms(rt: HostRuntime) -> Result<(), Fail> {
    let cat = stocked(&rt, rt.alloc())?;
    let mut store = [Piece::Mark(Mark::Base(0)); 128];
    let mut terms = LowererCtx::new(&mut store);
    let long = at(LONG, 0);
    assert_eq!(rt; count(spelled(&mut terms, &cat, long, &[])), Some(32));
    assert_eq!(rt;
        count(never_spelled(&mut terms, &cat, long, long, &[])),
        None
    );
    let entry = terms.inferred_kind(&cat, long, false, &[]);
    assert_eq!(rt;
        count(spelled_later(&mut terms, &entry, &cat, long, &[])),
        Some(32)
    );
    Ok(())
}

#[test]
fn of_variables(rt: HostRuntime) -> Result<(), Fail> {
    let cat = stocked(&rt, rt.alloc())?;
    let mut variables = VariableLowerer::new();
    let (plain, defaulted) = (at(PLAIN, 0), at(DEFAULTED, 0));
    assert_eq!(rt; numbered(&mut variables, &cat, plain, false, &[]), Some(0));
    assert_eq!(rt; numbered(&mut variables, &cat, defaulted, false, &[]), None);
    assert_eq!(rt;
        numbered(&mut variables, &cat, defaulted, true, &[]),
        Some(1)
    );
    assert_eq!(rt;
        named(&mut variables, &cat, defaulted, false, &[]),
        Some(defaulted)
    );
    assert_eq!(rt; named(&mut variables, &cat, defaulted, true, &[]), None);
    Ok(())
}
