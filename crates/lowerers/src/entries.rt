// The entries of both lowerers.
ghost use Rattle.std.specs.Prelude.{◌≡◌};
ghost use Rattle.lowerers.specs.Entries.{meant_by, NothingKept};

use lowerer::entry::Entry;
use lowerer::meaning::Meaning;

// An entry: what it means, and what its lowerer keeps of it besides, if anything.
#[derive(Clone, Copy)]
pub struct Made<K> {
    pub(crate) meaning: Meaning,
    pub(crate) kept: Option<K>,
}

impl<K> Entry for Made<K> {
    ghost means = { meant_by };

    fn meaning(&self) -> Meaning {
        self.meaning
    }
}

impl<K> Made<K> {
    // An entry of which nothing is kept besides its meaning.
    pub(crate) fn plain(meaning: Meaning) -> Made<K>
        ensures meaning { meant_by result ≡ meaning }
        ensures kept { NothingKept result }
    {
        Made {
            meaning,
            kept: None,
        }
    }
}
