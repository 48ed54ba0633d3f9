ghost use Rattle.diagnostics.specs.Lists.{places_view};

use crate::held::{Places, Reports};
use crate::list::ReportList;
use crate::reports::PathLoweringDiagnostic;

impl<P: Places> ReportList for Reports<P> {
    ghost view = { λ s. places_view (P.AsSlice.items s.places) s.count };

    fn tell(&mut self, report: PathLoweringDiagnostic) {
        if self.count < self.places.as_slice().len() {
            self.places.put(self.count, report);
            self.count += 1;
        }
    }

    fn clear(&mut self) {
        self.count = 0;
    }

    fn room(&self) -> usize {
        self.places.as_slice().len() - self.count
    }

    fn stock(&self) -> usize {
        0
    }

    fn told(&self) -> usize {
        self.count
    }

    fn report(&self, i: usize) -> Option<PathLoweringDiagnostic> {
        self.places.as_slice()[..self.count].get(i).copied()
    }
}
