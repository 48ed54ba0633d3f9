// Parts of a line, and what is read in them.
ghost use Rattle.std.specs.Prelude.{◌≡◌, IfOk};
ghost use Rattle.spans.specs.Parts.{part};

use crate::line::Line;
use listing::blanks::trim;
use listing::faults::{Fault, ReadError, Reason};
use listing::names::name_len;
use spans::Span;

// A part of a line.
#[derive(Clone, Copy)]
pub struct Part<'a> {
    pub line: Line<'a>,
    pub place: Span,
}

// A name and the inside of the list that is written behind it, if one is.
#[derive(Clone, Copy)]
pub struct Named<'a> {
    pub name: Part<'a>,
    pub list: Option<Part<'a>>,
}

impl<'a> Part<'a> {
    // The whole line.
    pub(crate) fn whole(line: Line<'a>) -> Part<'a> {
        let place = Span {
            from: 0,
            len: line.text.len(),
        };
        Part { line, place }
    }

    pub(crate) fn text(self) -> &'a [u8]
        ensures { result.now ≡ part self.entry.line.text.now self.entry.place }
    {
        self.place.of(self.line.text)
    }

    // The part of its text at `inner`.
    pub(crate) fn inside(self, inner: Span) -> Part<'a> {
        let from = self.place.from.saturating_add(inner.from);
        Part {
            line: self.line,
            place: Span {
                from,
                len: inner.len,
            },
        }
    }

    // What is left behind its first `skip` bytes.
    pub(crate) fn behind(self, skip: usize) -> Part<'a> {
        self.inside(Span {
            from: skip,
            len: self.place.len.saturating_sub(skip),
        })
    }

    // The part without the white space around it.
    pub(crate) fn trimmed(self) -> Part<'a> {
        self.inside(trim(self.text()))
    }

    // The fault that it cannot be read from its first byte on.
    pub(crate) fn unreadable(self, reason: Reason) -> ReadError {
        ReadError::unreadable(self.place.from, reason)
    }

    // A fault in its text, by its place in the line.
    pub(crate) fn moved(self, e: ReadError) -> ReadError {
        match e {
            ReadError::Unreadable(Fault { at, reason }) => self.behind(at).unreadable(reason),
            ReadError::NoMemory => ReadError::NoMemory,
        }
    }

    // `n` as a number of arguments.
    pub(crate) fn count(self, n: usize) -> Result<u32, ReadError>
        ensures { IfOk result (λ k. k ≡ n) }
    {
        u32::try_from(n).map_err(|_| self.unreadable(Reason::Many))
    }

    // The inside of the list that it is.
    pub(crate) fn inside_list(self) -> Result<Part<'a>, ReadError> {
        let inside = self
            .text()
            .strip_prefix(b"<")
            .and_then(|rest| rest.strip_suffix(b">"));
        match inside {
            Some(inside) => Ok(self.inside(Span {
                from: 1,
                len: inside.len(),
            })),
            None => Err(self.unreadable(Reason::Behind)),
        }
    }

    // The name that it begins with, and the list behind it.
    pub(crate) fn named(self) -> Result<Named<'a>, ReadError> {
        let len = name_len(self.text());
        if len == 0 {
            return Err(self.unreadable(Reason::Name));
        }
        let name = self.inside(Span { from: 0, len });
        let rest = self.behind(len).trimmed();
        let list = if rest.text().is_empty() {
            None
        } else {
            Some(rest.inside_list()?)
        };
        Ok(Named { name, list })
    }
}
