// Cutting a text at its separators.
ghost use Rattle.std.specs.Prelude.{◌≡◌, ◌+◌, map, length, IfOk, vec_len};
ghost use Rattle.listing.specs.Answered.{Reads};
ghost use Rattle.listing.specs.Nesting.{start};
ghost use Rattle.spans.specs.Parts.{part};
ghost use Rattle.listing.specs.Pieces.{Adjacent, Cut, fault, separators, splits};

use crate::faults::{ReadError, Reason};
use crate::scanning::Scan;
use spans::Span;
use std::alloc::Global;

// Whether `b` separates two pieces.
fn is_split(separator: u8, scan: Scan, b: u8) -> bool
    ensures { result ≡ splits separator scan b }
{
    b == separator && scan.closed()
}

// The pieces of `text`, in order: nothing is lost, and no piece holds two.
pub fn cut(heap: Global, text: &[u8], separator: u8) -> Result<Vec<Span>, ReadError>
    ensures pieces { Reads result (fault separator start 0 text.now) (λ v. Cut separator (map (part text.now) v.items) text.now) }
    ensures places { IfOk result (λ v. Adjacent 0 v.items (length text.now + 1)) }
    ensures number { IfOk result (λ v. vec_len v ≡ separators separator start text.now + 1) }
{
    let mut spans = Vec::new(heap);
    let mut from = 0;
    let mut scan = Scan::start();
    // No `split`, since what stands before a byte decides whether it separates.
    for (i, b) in text.iter().enumerate() {
        if is_split(separator, scan, *b) {
            spans.push(Span {
                from,
                len: i - from,
            })?;
            from = i + 1;
            scan = Scan::start();
        } else {
            scan = scan
                .after(*b)
                .ok_or(ReadError::unreadable(i, Reason::Unopened))?;
        }
    }
    if !scan.closed() {
        return Err(ReadError::unreadable(text.len(), Reason::Unclosed));
    }
    spans.push(Span {
        from,
        len: text.len() - from,
    })?;
    Ok(spans)
}
