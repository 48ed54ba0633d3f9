// Lists of reports in a fixed number of places.
ghost use Rattle.std.specs.Prelude.{◌≡◌, ℕ, ◌<◌, ◌≤◌, length, slice_set};

use crate::reports::PathLoweringDiagnostic;
use std::convert::AsSlice;

mod list;

// Places that reports are put into. How many there are never changes.
pub trait Places: AsSlice<PathLoweringDiagnostic> {
    ghost size: { Self → ℕ };

    fn put(&mut self, i: usize, report: PathLoweringDiagnostic)
        requires { i < length (Self.AsSlice.items self.old) }
        ensures items { Self.AsSlice.items self.new ≡ slice_set (Self.AsSlice.items self.old) i report }
        ensures size { size self.new ≡ size self.old };
}

// A report list, of whose places the first `count` were told. Places with a count beside, since a list asks for no
// memory and so can't be refused any.
#[derive(Drop)]
pub struct Reports<P: Places> {
    pub(crate) places: P,
    pub(crate) count: usize,
    ghost within: { count ≤ P.Places.size places },
    ghost whole: { length (P.AsSlice.items places) ≡ P.Places.size places },
}
