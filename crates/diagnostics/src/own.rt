// A report list with places of its own.
ghost use Rattle.diagnostics.specs.Tells.{Fresh};
ghost use Rattle.diagnostics.specs.Lists.{own_view};

use crate::held::{Places, Reports};
use crate::reports::{GenericArgsProhibitedReason, PathLoweringDiagnostic};

// A report list with 64 places of its own.
pub type OwnReports = Reports<[PathLoweringDiagnostic; 64]>;

impl Places for [PathLoweringDiagnostic; 64] {
    ghost size = { λ _. 64 };

    fn put(&mut self, i: usize, report: PathLoweringDiagnostic) {
        self[i] = report;
    }
}

impl OwnReports {
    // Nothing told, and room for 64.
    pub fn new() -> OwnReports
        ensures { Fresh 64 (own_view result) }
    {
        // What stands in the places does not matter before it is told.
        let unused = PathLoweringDiagnostic::GenericArgsProhibited {
            segment: 0,
            reason: GenericArgsProhibitedReason::Module,
        };
        Reports {
            places: [unused; 64],
            count: 0,
        }
    }
}
