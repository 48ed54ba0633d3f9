// White space around a text.
ghost use Rattle.std.specs.Prelude.{◌≡◌};
ghost use Rattle.std.specs.List.{prefix_len, suffix_len};
ghost use Rattle.listing.specs.Blanks.{blank, trimmed, white};

use spans::Span;

pub fn is_white(b: u8) -> bool
    ensures { result ≡ white b }
{
    matches!(b, b' ' | b'\t' | b'\r')
}

// How much white space `text` begins with.
fn leading_white(text: &[u8]) -> usize
    ensures { result ≡ prefix_len white text.now }
{
    text.iter().take_while(|b| is_white(**b)).count()
}

// How much white space `text` ends with.
fn trailing_white(text: &[u8]) -> usize
    ensures { result ≡ suffix_len white text.now }
{
    text.iter().rev().take_while(|b| is_white(**b)).count()
}

// Whether `text` is nothing but white space.
pub fn is_blank(text: &[u8]) -> bool
    ensures { result ≡ blank text.now }
{
    text.iter().all(|b| is_white(*b))
}

// The part of `text` without the white space around it.
pub fn trim(text: &[u8]) -> Span
    ensures { result ≡ trimmed text.now }
{
    let from = leading_white(text);
    let end = text.len() - trailing_white(text);
    Span {
        from,
        len: end.saturating_sub(from),
    }
}
