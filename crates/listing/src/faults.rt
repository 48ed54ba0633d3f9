// Why a text cannot be read.
ghost use Rattle.std.specs.Prelude.{◌≡◌, Some};
ghost use Rattle.listing.specs.Words.{error_words, fault_words, reason_words};
ghost use Rattle.listing.specs.declared.faults.ReadError.TheVariants.{NoMemory};

use std::alloc::{AllocError, AllocFailed};
use std::error::Error;
use std::fmt;

#[derive(Clone, Copy, PartialEq, Eq, Debug)]
pub enum Reason {
    // A bracket is closed that is not open, an apostrophe stands right behind a name, or a quoted character does not
    // end.
    Unopened,
    // A bracket or a quote is not closed.
    Unclosed,
    // Nothing stands between two commas.
    Empty,
    // More arguments than numbers.
    Many,
    // A name should stand there.
    Name,
    // What stands behind a name is no list.
    Behind,
    // Names are joined by two colons.
    Colons,
    // A row is `'name`, `Name` or `const NAME`.
    Row,
    // A default is a number, a name or a lifetime.
    Default,
    // The name is taken.
    Twice,
    // No heading stands before the line.
    Heading,
}

impl fmt::Display for Reason {
    ghost output = { λ r. Some (reason_words r) };

    fn fmt<W: fmt::Write>(&self, f: &mut fmt::Formatter<W>) -> fmt::Result {
        f.write_str(match self {
            Reason::Unopened =>
                "a bracket is closed that is not open, or an apostrophe is out of place",
            Reason::Unclosed => "a bracket or a quote is not closed",
            Reason::Empty => "nothing stands between two commas",
            Reason::Many => "there are too many arguments",
            Reason::Name => "a name should stand here",
            Reason::Behind => "what stands behind a name is no list",
            Reason::Colons => "names are joined by two colons",
            Reason::Row => "a row is written 'name, Name or const NAME",
            Reason::Default => "a default is a number, a name, 'static or a row's lifetime",
            Reason::Twice => "a template of this name is declared already",
            Reason::Heading => "no heading stands before this line",
        })
    }
}

// The byte, counted from 0, at which a text cannot be read, and why.
#[derive(Clone, Copy, PartialEq, Eq, Debug)]
pub struct Fault {
    pub at: usize,
    pub reason: Reason,
}

impl fmt::Display for Fault {
    ghost output = { λ u. Some (fault_words u) };

    fn fmt<W: fmt::Write>(&self, f: &mut fmt::Formatter<W>) -> fmt::Result {
        let column = self.at.saturating_add(1);
        write!(f, "cannot be read, column {column}: {}", self.reason)
    }
}

#[derive(Clone, Copy, PartialEq, Eq, Debug)]
pub enum ReadError {
    Unreadable(Fault),
    NoMemory,
}

impl ReadError {
    // The text cannot be read at the byte `at`.
    pub fn unreadable(at: usize, reason: Reason) -> ReadError
        ensures { result ≡ ReadError.Unreadable (record { at = at; reason = reason }) }
    {
        ReadError::Unreadable(Fault { at, reason })
    }
}

impl fmt::Display for ReadError {
    ghost output = { λ e. Some (error_words e) };

    fn fmt<W: fmt::Write>(&self, f: &mut fmt::Formatter<W>) -> fmt::Result {
        match self {
            ReadError::Unreadable(fault) => write!(f, "{fault}"),
            ReadError::NoMemory => write!(f, "memory allocation failed"),
        }
    }
}

impl Error for ReadError {}

impl From<AllocError> for ReadError {
    ghost from_gives = { λ _ r. r ≡ NoMemory };

    fn from(_e: AllocError) -> ReadError {
        ReadError::NoMemory
    }
}

impl<T: Drop> From<AllocFailed<T>> for ReadError {
    ghost from_gives = { λ _ r. r ≡ NoMemory };

    fn from(_e: AllocFailed<T>) -> ReadError {
        ReadError::NoMemory
    }
}
