// The term lowerer: defaults are written out.
ghost use Rattle.std.specs.Prelude.{◌≤◌, min, length};

use crate::entries::Made;
use crate::lowering::Lowering;
use pieces::Piece;
use spans::Span;

mod makes;

// A store of pieces in the caller's memory. Its first `used` places hold the pieces of defaults, one default behind
// another; at most 65,536 places are used. A buffer with a length beside, since a lowerer has no heap.
#[derive(Drop)]
pub struct Terms<'a> {
    store: &'a mut [Piece<TermArg>],
    used: usize,
    ghost within: { used ≤ min (length store.now) 65536 },
}

// A lowerer that writes defaults into a store.
pub type LowererCtx<'a> = Lowering<Terms<'a>>;

// An entry of the term lowerer; of a default it keeps the part of the store that holds its pieces.
pub type TermArg = Made<Span>;
