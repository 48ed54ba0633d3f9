ghost use Rattle.std.specs.Prelude.{◌≡◌, ℕ, ◌-◌, ◌^◌, min};
ghost use Rattle.diagnostics.specs.Tells.{View, capacity_of, Capacity-stays};

use crate::list::ReportList;

// How many reports a list can hold: told plus room, at most the largest usize. No tell and no clear alters it.
#[tactic(auto, using(crate::proofs::Capacities::capacity_stays))]
pub fn capacity<R: ReportList>(list: &R) -> usize
    ensures sum { result ≡ min (capacity_of (R.ReportList.view list.now)) (2 ^ 64 - 1) }
    ensures stays { Capacity-stays }
{
    list.told().saturating_add(list.room())
}
