// Refusals, by their numbers and in words.
ghost use Rattle.std.specs.Prelude.{◌≡◌, Some};
ghost use Rattle.generics.specs.Refusals.{number_of, words_of};

use std::error::Error;
use std::fmt;

// Why a definition is not declared.
#[derive(Clone, Copy, PartialEq, Eq, Debug)]
pub enum DeclareRefusal {
    // A parent where none may be, or one that is no declared trait or impl.
    Parent,
    // More than 32 rows, or rows against the rules on Self, impl-trait rows and order.
    Rows,
    // A misplaced default.
    Default,
    // A default or a body that is no term as it should be, an alias without body, or a body elsewhere.
    Term,
    // 64 definitions, 512 rows or 2,048 marks would be passed.
    Full,
}

impl From<DeclareRefusal> for u32 {
    ghost from_gives = { λ refusal number. number ≡ number_of refusal };

    fn from(refusal: DeclareRefusal) -> u32 {
        match refusal {
            DeclareRefusal::Parent => 1,
            DeclareRefusal::Rows => 2,
            DeclareRefusal::Default => 3,
            DeclareRefusal::Term => 4,
            DeclareRefusal::Full => 5,
        }
    }
}

impl fmt::Display for DeclareRefusal {
    ghost output = { λ refusal. Some (words_of refusal) };

    fn fmt<W: fmt::Write>(&self, f: &mut fmt::Formatter<W>) -> fmt::Result {
        f.write_str(match self {
            DeclareRefusal::Parent =>
                "its parent is no declared trait or impl, or it may have none",
            DeclareRefusal::Rows =>
                "it has more than 32 rows, or a lifetime stands behind another row",
            DeclareRefusal::Default =>
                "a lifetime has a default, or a row without one stands behind a row with one",
            DeclareRefusal::Term => "a default does not fit its row",
            DeclareRefusal::Full => "the catalogue is full",
        })
    }
}

impl Error for DeclareRefusal {}
