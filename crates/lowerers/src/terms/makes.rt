ghost use Rattle.std.specs.Prelude.{◌≡◌, ◌+◌, ◌/◌, ◌<◌, ◌++◌, ◌∷◌, [], min, length};
ghost use Rattle.std.specs.Option.{option_map};
ghost use Rattle.lowerers.specs.Entries.{NothingKept};
ghost use Rattle.lowerers.specs.Shown.{fresh_view};
ghost use Rattle.lowerers.specs.Stores.{places_left, term_view, written, written_in, Writing};

use crate::entries::Made;
use crate::lowering::{Lowering, Stocked};
use crate::makes::Makes;
use crate::terms::{TermArg, Terms};
use definitions::kinds::Mark;
use diagnostics::own::OwnReports;
use lowerer::meaning::{Meaning, ParamPlace};
use pieces::Piece;
use spans::Span;

impl<'a> Stocked for Terms<'a> {
    ghost left = { λ s. places_left (length s.store.now) s.used / 32 };

    fn stock(&self) -> usize {
        (self.store.len().min(65536) - self.used) / 32
    }
}

impl<'a> Terms<'a> {
    // One piece more behind those that are there.
    fn push(&mut self, piece: Piece<TermArg>)
        requires { self.old.used < min (length self.old.store.now) 65536 }
        ensures written { written self.new ≡ written self.old ++ piece ∷ [] }
        ensures used { self.new.used ≡ self.old.used + 1 }
        ensures size { length self.new.store.now ≡ length self.old.store.now }
    {
        self.store[self.used] = piece;
        self.used += 1;
    }
}

// A default takes a place for each of its pieces; nothing else takes one.
impl<'a> Makes for Terms<'a> {
    type Kept = Span;

    ghost Infers = { λ o r entries s t e. Writing o entries s t e };

    ghost Opens = { λ r s t e. NothingKept e × (t ≡ s) };

    // Writes the marks behind what is there, with entry p for ref p.
    fn default_entry(
        &mut self,
        meaning: Meaning,
        _row: ParamPlace,
        marks: &[Mark],
        entries: &[TermArg],
    ) -> TermArg {
        let from = self.used;
        for mark in marks {
            self.push(Piece::of(entries, *mark));
        }
        let len = marks.len();
        Made {
            meaning,
            kept: Some(Span { from, len }),
        }
    }

    fn open_entry(&mut self, meaning: Meaning) -> TermArg {
        Made::plain(meaning)
    }
}

impl<'a> Lowering<Terms<'a>> {
    // Nothing told, room for 64 reports, and no place of the store used.
    pub fn new(store: &'a mut [Piece<TermArg>]) -> Lowering<Terms<'a>>
        ensures shows { term_view result ≡ fresh_view (min (length store.old) 65536 / 32) }
        ensures used { result.makes.used ≡ 0 }
        ensures size { length result.makes.store.now ≡ length store.old }
    {
        Lowering {
            reports: OwnReports::new(),
            makes: Terms { store, used: 0 },
        }
    }

    // The pieces of an entry that is a default of this lowerer's; its other entries have none. An entry of another term
    // lowerer's may find pieces that are not its own.
    pub fn pieces(&self, entry: &TermArg) -> Option<&[Piece<TermArg>]>
        ensures { option_map (λ x. x.now) result ≡ written_in self.now.makes entry.now }
    {
        let Span { from, len } = entry.kept?;
        self.makes.store[..self.makes.used].get(from..)?.get(..len)
    }
}
