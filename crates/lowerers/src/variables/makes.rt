ghost use Rattle.std.specs.Prelude.{◌≡◌};
ghost use Rattle.lowerers.specs.Numbers.{kept_next, named_by, number_in, numbered_by, variable_view, variables_left, Apart, Numbering, Took};
ghost use Rattle.lowerers.specs.Shown.{fresh_view};

use crate::entries::Made;
use crate::lowering::{Lowering, Stocked};
use crate::makes::Makes;
use crate::variables::{Kept, VariableArg, Variables};
use definitions::kinds::Mark;
use diagnostics::own::OwnReports;
use lowerer::meaning::{Meaning, ParamPlace};

impl Stocked for Variables {
    ghost left = { λ s. variables_left s.taken };

    fn stock(&self) -> usize {
        (256 - self.taken) as usize
    }
}

impl Variables {
    // The next variable, if one is left.
    fn next(&mut self) -> Option<Kept>
        ensures next { result ≡ kept_next self.old.taken }
        ensures took { Took self.old.taken (number_in result) self.new.taken }
    {
        if self.taken < 256 {
            let number = self.taken;
            self.taken += 1;
            Some(Kept::Variable(number))
        } else {
            None
        }
    }
}

// A row that is unknown or the parent's takes the next variable, where one is left; nothing else takes one.
impl Makes for Variables {
    type Kept = Kept;

    ghost Infers = { λ o r entries s t e. Numbering s t r e };

    ghost Opens = { λ r s t e. Numbering s t r e };

    fn default_entry(
        &mut self,
        meaning: Meaning,
        row: ParamPlace,
        _marks: &[Mark],
        _entries: &[VariableArg],
    ) -> VariableArg {
        Made {
            meaning,
            kept: Some(Kept::Default(row)),
        }
    }

    fn open_entry(&mut self, meaning: Meaning) -> VariableArg {
        Made {
            meaning,
            kept: self.next(),
        }
    }
}

impl Made<Kept> {
    // The variable that stands for the entry, if one does. No two entries of a lowerer have the same.
    #[tactic(auto, using(crate::proofs::Variabled::apart))]
    pub fn variable(&self) -> Option<u32>
        ensures number { result ≡ numbered_by self.now }
        ensures apart { Apart }
    {
        match self.kept? {
            Kept::Variable(number) => Some(number),
            Kept::Default(_) => None,
        }
    }

    // The row whose default the entry is, if it is one.
    pub fn default_of(&self) -> Option<ParamPlace>
        ensures { result ≡ named_by self.now }
    {
        match self.kept? {
            Kept::Default(row) => Some(row),
            Kept::Variable(_) => None,
        }
    }
}

impl Lowering<Variables> {
    // Nothing told, room for 64 reports, and 256 variables.
    pub fn new() -> Lowering<Variables>
        ensures { variable_view result ≡ fresh_view 256 }
    {
        Lowering {
            reports: OwnReports::new(),
            makes: Variables { taken: 0 },
        }
    }
}
