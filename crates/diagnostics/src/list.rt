ghost use Rattle.std.specs.Prelude.{◌≡◌, ℕ, length, slice_get};
ghost use Rattle.diagnostics.specs.Tells.{View, Told, Cleared};

use crate::reports::PathLoweringDiagnostic;

// A list of reports. It shows the reports told, in order, its room, which is how many more can be told, and its stock:
// at least so many more entries of defaults and parents can be made. A list that makes no entries has stock 0.
pub trait ReportList {
    ghost view: { Self → View };

    // Appends a report and takes one from the room; with no room it does nothing.
    fn tell(&mut self, report: PathLoweringDiagnostic)
        ensures { Told report (view self.old) (view self.new) };

    // Forgets the reports, so that their places are room again.
    fn clear(&mut self)
        ensures { Cleared (view self.old) (view self.new) };

    fn room(&self) -> usize
        ensures { result ≡ (view self.now).room };

    fn stock(&self) -> usize
        ensures { result ≡ (view self.now).stock };

    // How many reports were told.
    fn told(&self) -> usize
        ensures { result ≡ length (view self.now).told };

    // The i-th report told, from 0.
    fn report(&self, i: usize) -> Option<PathLoweringDiagnostic>
        ensures { result ≡ slice_get (view self.now).told i };
}
