// Pieces: marks and entries mixed, as a term is written out with entries in it.
#![tactic(auto)]

ghost use Rattle.std.specs.Prelude.{◌≡◌, length};
ghost use Rattle.pieces.specs.Pieces.{piece_with, IsNoRef, RefBelow};

use definitions::kinds::Mark;

// A piece is a mark or an entry, alike for every make of entry. An entry stands for one whole term and is not opened.
#[derive(Clone, Copy)]
pub enum Piece<A> {
    Mark(Mark),
    Entry(A),
}

impl<A: Copy> Piece<A> {
    // The piece that is written for a mark: entry p for ref p, and any other mark as it is. A ref for which there is
    // no entry stays.
    pub fn of(entries: &[A], mark: Mark) -> Piece<A>
        ensures piece { result ≡ piece_with entries.now mark }
        ensures whole { RefBelow (length entries.now) mark → IsNoRef result }
    {
        match mark {
            Mark::Ref(place) => entries
                .get(place as usize)
                .map_or(Piece::Mark(mark), |entry| Piece::Entry(*entry)),
            mark => Piece::Mark(mark),
        }
    }
}
