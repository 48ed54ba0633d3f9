// The entries of rows for which nothing is written.
#![tactic(auto)]

ghost use Rattle.std.specs.Prelude.{◌≡◌, ◌≤◌, length, map, IfOk, vec_items, vec_len};
ghost use Rattle.generics.specs.Held.{held};
ghost use Rattle.nothing_written.specs.Unwritten.{rows_of, unwritten_list, SpentAtMost};

use generics::catalogue::Catalogue;
use lowerer::makings::GenericArgsLowerer;
use lowerer::meaning::ParamPlace;
use places::view::Generics;
use std::alloc::{AllocError, Global};

// An entry for each row, made by inferred one after another with inference off. Where the lowerer's stock is at least as
// large as the list, each row with a default is its default, and every other row is unknown. Want of memory leaves the
// reports as they were too; some of the stock may be spent then.
pub fn entries_of<L: GenericArgsLowerer>(
    heap: Global,
    cat: &Catalogue,
    def: u32,
    lowerer: &mut L,
) -> Result<Vec<L::Arg>, AllocError>
    ensures number { IfOk result (λ v. vec_len v ≡ length (rows_of (held cat.now) def)) }
    ensures unwritten { IfOk result (λ v. let rows = rows_of (held cat.now) def in length rows ≤ (L.ReportList.view lowerer.old).stock → map L.meaning (vec_items v) ≡ unwritten_list rows) }
    ensures state { SpentAtMost (length (rows_of (held cat.now) def)) (L.ReportList.view lowerer.old) (L.ReportList.view lowerer.new) }
{
    let mut entries = Vec::new(heap);
    for place in 0..Generics::of(cat, def).len() {
        let row = ParamPlace { def, place };
        let entry = lowerer.inferred_kind(cat, row, false, entries.as_slice());
        entries.push(entry)?;
    }
    Ok(entries)
}
