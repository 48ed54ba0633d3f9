// Names.
ghost use Rattle.std.specs.Prelude.{◌≡◌};
ghost use Rattle.std.specs.List.{prefix_len};
ghost use Rattle.listing.specs.Nesting.{name_byte};
ghost use Rattle.listing.specs.Tokens.{name_length};

use crate::scanning::{is_letter, is_name_byte};

// How many bytes at the front of `text` may stand in a name.
fn word_len(text: &[u8]) -> usize
    ensures { result ≡ prefix_len name_byte text.now }
{
    text.iter().take_while(|byte| is_name_byte(**byte)).count()
}

// How long the name is that `text` begins with: 0 where it begins with none.
pub fn name_len(text: &[u8]) -> usize
    ensures { result ≡ name_length text.now }
{
    match text {
        [first, ..] if is_letter(*first) => word_len(text),
        _ => 0,
    }
}
