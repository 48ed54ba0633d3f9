// The arguments of a list.
ghost use Rattle.std.specs.Prelude.{◌≡◌, ◌+◌, ◌^◌, ◌≤◌, ◌++◌, length, IfOk, Ok, vec_items, vec_len, vec_capacity, OnErr};
ghost use Rattle.listing.specs.Tokens.{form};
ghost use Rattle.listing.specs.Arguments.{Listed, Refused, args_of, bare, first_blank};

use crate::blanks::{is_blank, trim};
use crate::cutting::cut;
use crate::faults::{ReadError, Reason};
use crate::forms::form_of;
use path::args::{Form, GenericArg};
use spans::Span;
use std::alloc::Global;

// Where the first blank one of `spans` begins, if one is blank.
fn blank_at(text: &[u8], spans: &[Span]) -> Option<usize>
    ensures { result ≡ first_blank text.now spans.now }
{
    let blank = spans.iter().find(|span| is_blank(span.of(text)))?;
    Some(blank.from)
}

// The written arguments of the list whose text, between `<` and `>`, is `text`: one for each, in order. A list
// may be empty and may end with a comma.
pub fn arguments(heap: Global, text: &[u8]) -> Result<Vec<Span>, ReadError>
    ensures { Listed vec_items text.now result }
{
    let mut spans = cut(heap, text, b',')?;
    spans.pop_if(|last| is_blank(last.of(text)));
    match blank_at(text, spans.as_slice()) {
        Some(at) => Err(ReadError::unreadable(at, Reason::Empty)),
        None => Ok(spans),
    }
}

// The form of an argument with white space around it.
fn form_in(piece: &[u8]) -> Form
    ensures { result ≡ form (bare piece.now) }
{
    form_of(trim(piece).of(piece))
}

// Adds an argument for each of `spans`, for which memory is reserved and numbers are left. The handle of an
// argument is its number among `args`.
fn push_arguments(text: &[u8], spans: &[Span], args: &mut Vec<GenericArg>)
    requires room { vec_len args.old + length spans.now ≤ vec_capacity args.old }
    requires few { vec_len args.old + length spans.now ≤ 2 ^ 32 }
    ensures { args.new.items ≡ args.old.items ++ args_of text.now (vec_len args.old) spans.now }
{
    for span in spans {
        let form = form_in(span.of(text));
        let handle = args.len() as u32;
        args.push_reserved(GenericArg { form, handle });
    }
}

// Reads the list whose text, between `<` and `>`, is `text`: adds one argument for each written one, in order,
// and gives their places in the text. A refusal adds none.
pub fn read_list(
    heap: Global,
    text: &[u8],
    args: &mut Vec<GenericArg>,
) -> Result<Vec<Span>, ReadError>
    ensures written { IfOk result (λ v. Listed vec_items text.now (Ok v)) }
    ensures added { IfOk result (λ v. args.new.items ≡ args.old.items ++ args_of text.now (vec_len args.old) v.items) }
    ensures refused { Refused (vec_len args.old) text.now result }
    ensures kept { OnErr result (args.new.items ≡ args.old.items) }
{
    let spans = arguments(heap, text)?;
    let count = args.len().saturating_add(spans.len());
    if count > 0x1_0000_0000 {
        return Err(ReadError::unreadable(0, Reason::Many));
    }
    args.reserve(spans.len())?;
    push_arguments(text, spans.as_slice(), args);
    Ok(spans)
}
