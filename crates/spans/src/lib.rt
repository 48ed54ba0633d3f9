// A part of a list, whatever the list is of.
#![tactic(auto)]

ghost use Rattle.std.specs.Prelude.{◌≡◌};
ghost use Rattle.spans.specs.Parts.{part};

// A part of a list, by the position where it begins and by its length.
#[derive(Clone, Copy, PartialEq, Eq, Debug)]
pub struct Span {
    pub from: usize,
    pub len: usize,
}

impl Span {
    // What the span names of `all`; what would stand past its end is left out.
    pub fn of<T>(self, all: &[T]) -> &[T]
        ensures { result.now ≡ part all.now self }
    {
        let Some(rest) = all.get(self.from..) else {
            return &[];
        };
        &rest[..self.len.min(rest.len())]
    }
}
