// The path of a schedule line.
ghost use Rattle.std.specs.Prelude.{◌≡◌, IfOk, vec_len};
ghost use Rattle.spans.specs.Parts.{part};
ghost use Rattle.feeds.specs.Segments.{ListRead};

use crate::parts::{Named, Part};
use listing::cutting::cut;
use listing::faults::{ReadError, Reason};
use listing::lists::read_list;
use path::args::GenericArg;
use path::segments::{GenericArgs, PathSegment};
use spans::Span;
use std::alloc::Global;

// A path as it is written: its segments with their names, and the arguments of all its lists with their places.
// The lists are parallel, since `check_path` takes a slice of segments and `resolve` one of names, and since
// `read_list` fills one list of arguments and answers their places by themselves.
#[derive(Drop)]
pub struct PathText {
    heap: Global,
    pub names: Vec<Span>,
    pub segments: Vec<PathSegment>,
    pub args: Vec<GenericArg>,
    pub places: Vec<Span>,

    // Each segment has a name.
    pub ghost paired: { vec_len names ≡ vec_len segments },
}

impl PathText {
    fn new(heap: Global) -> PathText {
        PathText {
            heap,
            names: Vec::new(heap),
            segments: Vec::new(heap),
            args: Vec::new(heap),
            places: Vec::new(heap),
        }
    }

    // Reads the list whose inside is `list`: its arguments are the written ones, in order, behind those that were
    // read before.
    fn add_list(&mut self, list: Part) -> Result<GenericArgs, ReadError>
        ensures read { IfOk result (λ g. ListRead (part list.entry.line.text.now list.entry.place) self.old.args.items self.new.args.items g) }
        ensures kept { (vec_len self.new.names ≡ vec_len self.old.names) × (vec_len self.new.segments ≡ vec_len self.old.segments) }
    {
        let start = list.count(self.args.len())?;
        let spans = read_list(self.heap, list.text(), &mut self.args).map_err(|e| list.moved(e))?;
        let len = list.count(spans.len())?;
        self.places.extend(spans.iter().map(|span| list.inside(*span).trimmed().place))?;
        Ok(GenericArgs {
            start,
            len,
            has_self: false,
        })
    }

    // Adds a segment with a name.
    fn add_segment(&mut self, part: Part) -> Result<(), ReadError> {
        let Named { name, list } = part.named()?;
        let args = match list {
            Some(list) => Some(self.add_list(list)?),
            None => None,
        };
        self.names.reserve(1)?;
        self.segments.reserve(1)?;
        self.names.push_reserved(name.place);
        self.segments.push_reserved(PathSegment { args });
        Ok(())
    }

    // A list behind `::` is that of the segment before it.
    fn add_turbofish(&mut self, part: Part) -> Result<(), ReadError> {
        let Some(PathSegment { args: None }) = self.segments.last() else {
            return Err(part.unreadable(Reason::Name));
        };
        let args = self.add_list(part.inside_list()?)?;
        if let Some(segment) = self.segments.last_mut() {
            segment.args = Some(args);
        }
        Ok(())
    }

    // Adds what stands between two `::`.
    fn add_piece(&mut self, piece: Part) -> Result<(), ReadError> {
        let piece = piece.trimmed();
        if piece.text().starts_with(b"<") {
            self.add_turbofish(piece)
        } else {
            self.add_segment(piece)
        }
    }
}

// Reads the path. It is cut at each colon, so that every other piece stands between two colons and has to be empty.
pub(crate) fn read_path(heap: Global, part: Part) -> Result<PathText, ReadError> {
    let pieces = cut(heap, part.text(), b':').map_err(|e| part.moved(e))?;
    let mut path = PathText::new(heap);
    for (i, piece) in pieces.iter().enumerate() {
        let piece = part.inside(*piece);
        if i % 2 == 0 {
            path.add_piece(piece)?;
        } else if piece.place.len > 0 {
            return Err(piece.unreadable(Reason::Colons));
        }
    }
    if pieces.len() % 2 == 0 {
        return Err(part.behind(part.place.len).unreadable(Reason::Colons));
    }
    Ok(path)
}
