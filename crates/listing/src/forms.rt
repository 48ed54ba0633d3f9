// The form that an argument is written in.
ghost use Rattle.std.specs.Prelude.{◌≡◌, slice_index};
ghost use Rattle.listing.specs.Tokens.{begins_constant, form, truth};

use crate::shapes::is_path;
use path::args::Form;

// Whether `text` begins as a number, a text or a block does.
fn is_constant_start(text: &[u8]) -> bool
    ensures { result ≡ begins_constant (slice_index text.now 0) }
{
    matches!(text, [b'0'..=b'9' | b'-' | b'"' | b'{', ..])
}

// Whether `text` is a truth value.
fn is_truth(text: &[u8]) -> bool
    ensures { result ≡ truth text.now }
{
    text == b"true".as_slice() || text == b"false".as_slice()
}

// The form of an argument that has no white space around it.
pub fn form_of(text: &[u8]) -> Form
    ensures { result ≡ form text.now }
{
    match text {
        [b'\'', _, .., b'\''] => Form::Constant,
        [b'\'', ..] => Form::Lifetime,
        [b'_'] => Form::Placeholder,
        _ if is_constant_start(text) || is_truth(text) => Form::Constant,
        _ if is_path(text) => Form::Path,
        _ => Form::Type,
    }
}
