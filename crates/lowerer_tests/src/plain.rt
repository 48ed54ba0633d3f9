// A lowerer of another make, over any report list.
ghost use Rattle.lowerers.specs.Shown.{with_stock};

use definitions::kinds::Kind;
use diagnostics::list::ReportList;
use diagnostics::reports::PathLoweringDiagnostic;
use generics::catalogue::Catalogue;
use lowerer::defaults::default_for;
use lowerer::makings::GenericArgsLowerer;
use lowerer::meaning::{Meaning, ParamPlace, Source};
use path::args::GenericArg;

// Its entries are what they mean and nothing else. Each inferred and parent making lowers its stock, or none does: the
// trait leaves that open.
#[derive(Drop)]
pub struct Plain<R> {
    pub(crate) reports: R,
    pub(crate) stock: usize,
    pub(crate) spends: bool,
}

impl<R: ReportList> ReportList for Plain<R> {
    ghost view = { λ s. with_stock (R.ReportList.view s.reports) s.stock };

    fn tell(&mut self, report: PathLoweringDiagnostic) {
        self.reports.tell(report);
    }

    fn clear(&mut self) {
        self.reports.clear();
    }

    fn room(&self) -> usize {
        self.reports.room()
    }

    fn stock(&self) -> usize {
        self.stock
    }

    fn told(&self) -> usize {
        self.reports.told()
    }

    fn report(&self, i: usize) -> Option<PathLoweringDiagnostic> {
        self.reports.report(i)
    }
}

impl<R: ReportList> GenericArgsLowerer for Plain<R> {
    type Arg = Meaning;

    ghost meaning = { λ m. m };

    fn provided_kind(&mut self, cat: &Catalogue, row: ParamPlace, arg: GenericArg) -> Meaning {
        Meaning::provided(cat, row, arg)
    }

    fn provided_type_like_const(&mut self, handle: u32) -> Meaning {
        Meaning::type_like_const(handle)
    }

    fn inferred_kind(
        &mut self,
        cat: &Catalogue,
        row: ParamPlace,
        infer: bool,
        preceding: &[Meaning],
    ) -> Meaning {
        let stocked = self.stock > 0;
        let source = match default_for(cat, row, infer, preceding).filter(|_| stocked) {
            Some(_) => Source::Default,
            None => Source::Unknown,
        };
        if self.spends {
            self.stock = self.stock.saturating_sub(1);
        }
        Meaning::at_row(cat, row, source)
    }

    fn parent_arg(&mut self, cat: &Catalogue, row: ParamPlace) -> Meaning {
        let source = if self.stock > 0 {
            Source::Parent
        } else {
            Source::Unknown
        };
        if self.spends {
            self.stock = self.stock.saturating_sub(1);
        }
        Meaning::at_row(cat, row, source)
    }

    fn explicit_arg(&mut self, handle: u32) -> Meaning {
        Meaning::explicit(handle)
    }

    fn elided_arg(&mut self, region: u32) -> Meaning {
        Meaning::elided(region)
    }

    fn kind_of(&self, entry: &Meaning) -> Kind {
        entry.kind
    }
}
