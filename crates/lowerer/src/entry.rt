// Entries that show what they mean.
ghost use Rattle.std.specs.Prelude.{◌≡◌};
ghost use Rattle.lowerer.specs.declared.meaning.Meaning.{Meaning as Meant};

use crate::meaning::Meaning;

// An entry, by what it means. What a lowerer's entry type keeps to itself does not show here.
pub trait Entry {
    ghost means: { Self → Meant };

    fn meaning(&self) -> Meaning
        ensures { result ≡ means self.now };
}

// A meaning alone, as the entry of a lowerer that keeps nothing else.
impl Entry for Meaning {
    ghost means = { λ m. m };

    fn meaning(&self) -> Meaning {
        *self
    }
}
