// The variable lowerer: what is not known is numbered.
ghost use Rattle.std.specs.Prelude.{◌≤◌};

use crate::entries::Made;
use crate::lowering::Lowering;
use lowerer::meaning::ParamPlace;

mod makes;

// How many of the 256 variables are taken.
#[derive(Drop)]
pub struct Variables {
    taken: u32,
    ghost few: { taken ≤ 256 },
}

// A lowerer that gives variables to the unknown and parent entries that inferred and parent make above stock 0.
pub type VariableLowerer = Lowering<Variables>;

// What is kept of an entry: the variable that stands for it, or the row whose default it is.
#[derive(Clone, Copy)]
pub enum Kept {
    Variable(u32),
    Default(ParamPlace),
}

// An entry of the variable lowerer.
pub type VariableArg = Made<Kept>;
