// A line of the day, and what is told of it.
use generics::refusal::DeclareRefusal;
use listing::faults::ReadError;
use path::checked::CheckRefusal;
use std::alloc::AllocError;
use std::io;

// A line and its number, counted from 1.
#[derive(Clone, Copy)]
pub struct Line<'a> {
    pub number: usize,
    pub text: &'a [u8],
}

// The text as it was written.
pub(crate) fn shown(text: &[u8]) -> &str {
    std::str::from_utf8(text).unwrap_or("?")
}

impl<'a> Line<'a> {
    pub(crate) fn tell_unread(self, rt: &impl Print, e: ReadError) -> io::Result<()> {
        let number = self.number;
        match e {
            ReadError::Unreadable(fault) => println!(rt; "{number}: {fault}"),
            ReadError::NoMemory => Err(AllocError.into()),
        }
    }

    pub(crate) fn tell_declared(
        self,
        rt: &impl Print,
        name: &[u8],
        def: u32,
        rows: usize,
    ) -> io::Result<()> {
        let number = self.number;
        let name = shown(name);
        println!(rt; "{number}: `{name}` is definition {def}; rows: {rows}")
    }

    pub(crate) fn tell_refused(
        self,
        rt: &impl Print,
        name: &[u8],
        refusal: DeclareRefusal,
    ) -> io::Result<()> {
        let number = self.number;
        let name = shown(name);
        let code = u32::from(refusal);
        println!(rt; "{number}: `{name}` is refused with {code}: {refusal}")
    }

    pub(crate) fn tell_unchecked(self, rt: &impl Print, refusal: CheckRefusal) -> io::Result<()> {
        let number = self.number;
        let code = u32::from(refusal);
        println!(rt; "{number}: the path is refused with {code}: {refusal}")
    }
}
