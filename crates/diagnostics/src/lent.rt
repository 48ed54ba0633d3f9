// A report list in the caller's memory.
ghost use Rattle.std.specs.Prelude.{length};
ghost use Rattle.diagnostics.specs.Tells.{Fresh};
ghost use Rattle.diagnostics.specs.Lists.{places_view};

use crate::held::{Places, Reports};
use crate::reports::PathLoweringDiagnostic;

// A report list in the caller's memory. The reports are read from the list; what the memory holds afterwards is not
// promised.
pub type LentReports<'a> = Reports<&'a mut [PathLoweringDiagnostic]>;

impl Places for &mut [PathLoweringDiagnostic] {
    ghost size = { λ places. length places.now };

    fn put(&mut self, i: usize, report: PathLoweringDiagnostic) {
        self[i] = report;
    }
}

impl<'a> LentReports<'a> {
    // Nothing told, and room for as many reports as there are places.
    pub fn new(places: &'a mut [PathLoweringDiagnostic]) -> LentReports<'a>
        ensures { Fresh (length places.old) (places_view result.places.now result.count) }
    {
        Reports { places, count: 0 }
    }
}
