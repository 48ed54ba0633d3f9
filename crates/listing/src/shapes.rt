// The shape of a path, byte by byte.
ghost use Rattle.std.specs.Prelude.{◌≡◌, ◌+◌, ◌^◌, ◌<◌};
ghost use Rattle.listing.specs.Tokens.{deep, ends, inside, path_from, place_after};
ghost use Rattle.listing.specs.declared.shapes.Place.TheVariants.{First};

use crate::blanks::is_white;
use crate::scanning::{Mode, Scan, is_letter, is_name_byte};

// A place in a path.
#[derive(Clone, Copy)]
pub enum Place {
    // Where the path begins.
    First,
    // Behind `::`.
    Next,
    // In a name.
    Name,
    // In white space behind a name.
    Gap,
    // Behind the first of two colons.
    Colon,
    // In a list.
    Inside(Scan),
    // Behind a list.
    Behind,
}

// The place behind one more byte of a list, behind which the scan of the list stands at `scan`.
fn in_list(scan: Scan) -> Place
    ensures { Some result ≡ inside (Some scan) }
{
    if scan.closed() {
        Place::Behind
    } else {
        Place::Inside(scan)
    }
}

impl Place {
    // The place behind `byte`, if a path can have it here.
    fn after(self, byte: u8) -> Option<Place>
        requires { deep self + 1 < 2 ^ 64 }
        ensures { result ≡ place_after self byte }
    {
        match (self, byte) {
            (Place::First | Place::Next, _) if is_letter(byte) => Some(Place::Name),
            (Place::Name, _) if is_name_byte(byte) => Some(Place::Name),
            (Place::Next, _) if is_white(byte) => Some(Place::Next),
            (Place::Name | Place::Gap, _) if is_white(byte) => Some(Place::Gap),
            (Place::Behind, _) if is_white(byte) => Some(Place::Behind),
            (Place::Name | Place::Gap | Place::Behind, b':') => Some(Place::Colon),
            (Place::Colon, b':') => Some(Place::Next),
            (Place::Next | Place::Name | Place::Gap, b'<') => Some(Place::Inside(Scan {
                depth: 1,
                mode: Mode::Plain,
            })),
            (Place::Inside(scan), _) => scan.after(byte).map(in_list),
            _ => None,
        }
    }

    // Whether a path may end here.
    fn ends(self) -> bool
        ensures { result ≡ ends self }
    {
        matches!(self, Place::Name | Place::Gap | Place::Behind)
    }
}

// Whether `text` is a path: names joined by `::`, each with a list behind it or without.
pub(crate) fn is_path(text: &[u8]) -> bool
    ensures { result ≡ path_from First text.now }
{
    // A `try_fold` was tried and its proof did not close: its closure cannot know how deep a place is, which the loop's
    // invariant says.
    let mut place = Place::First;
    for byte in text {
        let Some(next) = place.after(*byte) else {
            return false;
        };
        place = next;
    }
    place.ends()
}
