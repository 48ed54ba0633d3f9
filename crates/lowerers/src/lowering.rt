// What the lowerers share: 64 reports beside what each makes its entries with.
ghost use Rattle.std.specs.Prelude.{◌≡◌, ℕ};
ghost use Rattle.diagnostics.specs.Tells.{Told, Cleared};
ghost use Rattle.lowerers.specs.Shown.{view_by};

use diagnostics::list::ReportList;
use diagnostics::own::OwnReports;
use diagnostics::reports::PathLoweringDiagnostic;

// What entries are made with. Its stock: at least so many more entries of defaults and parents can be made.
pub trait Stocked {
    ghost left: { Self → ℕ };

    fn stock(&self) -> usize
        ensures { result ≡ left self.now };
}

// A lowerer: a list of 64 reports, and what it makes its entries with. Reports and makings do not touch each other.
#[derive(Drop)]
pub struct Lowering<M> {
    pub(crate) reports: OwnReports,
    pub(crate) makes: M,
}

impl<M: Stocked> ReportList for Lowering<M> {
    ghost view = { view_by M.Stocked.left };

    fn tell(&mut self, report: PathLoweringDiagnostic)
        ensures told { Told report (view_by M.Stocked.left self.old) (view_by M.Stocked.left self.new) }
        ensures makes { self.new.makes ≡ self.old.makes }
    {
        self.reports.tell(report);
    }

    fn clear(&mut self)
        ensures cleared { Cleared (view_by M.Stocked.left self.old) (view_by M.Stocked.left self.new) }
        ensures makes { self.new.makes ≡ self.old.makes }
    {
        self.reports.clear();
    }

    fn room(&self) -> usize {
        self.reports.room()
    }

    fn stock(&self) -> usize {
        self.makes.stock()
    }

    fn told(&self) -> usize {
        self.reports.told()
    }

    fn report(&self, i: usize) -> Option<PathLoweringDiagnostic> {
        self.reports.report(i)
    }
}
