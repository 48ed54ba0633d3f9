// The lines of a day, one after the other.
use crate::line::Line;
use crate::parts::Part;
use crate::paths::read_path;
use crate::templates::{RowText, Word, read_template, row_of};
use crate::told::Told;
use crate::unwritten::Unwritten;
use definitions::kinds::{Declaration, GenericDefKind, GenericParam, Mark};
use diagnostics::own::OwnReports;
use generics::catalogue::Catalogue;
use indexmap::IndexSet;
use listing::faults::Reason;
use naming::known::{Template, resolve, template_of};
use path::checked::check_path;
use std::alloc::{AllocError, Global};
use std::io;

// What the lines under a heading are. A match on the two says what is done; a closure for each would say no more.
#[derive(Clone, Copy)]
enum Section {
    Templates,
    Schedule,
}

// The section that a heading begins.
fn headed(text: &[u8]) -> Option<Section> {
    match text {
        b"[templates]" => Some(Section::Templates),
        b"[schedule]" => Some(Section::Schedule),
        _ => None,
    }
}

// What is known of the day so far. A base type is numbered by its place in `bases`. `templates` is a list, since the
// first of two templates of one name is meant, and they are read by number too.
#[derive(Drop)]
pub struct Day {
    heap: Global,
    section: Option<Section>,
    catalogue: Catalogue,
    templates: Vec<Template>,
    bases: IndexSet<Vec<u8>>,
}

// `n`, or the greatest number there is. A row or a name of so high a number is refused by the catalogue or has
// found no memory before.
fn as_number(n: usize) -> u32 {
    u32::try_from(n).unwrap_or(u32::MAX)
}

// The rows as they are declared; each default is the mark at the row's place.
fn params_of<'a>(
    heap: Global,
    rows: &[RowText],
    marks: &'a [Mark],
) -> Result<Vec<GenericParam<'a>>, AllocError> {
    rows.iter()
        .zip(marks.chunks(1))
        .map(|(row, mark)| GenericParam {
            kind: row.kind,
            default: row.default.map(|_| mark),
        })
        .collect(heap)
}

impl Day {
    pub(crate) fn new(heap: Global) -> Result<Day, AllocError> {
        Ok(Day {
            heap,
            section: None,
            catalogue: Catalogue::new(heap)?,
            templates: Vec::new(heap),
            bases: IndexSet::new(heap),
        })
    }

    // The number of the base type of that name.
    fn base_of(&mut self, name: &[u8]) -> Result<u32, AllocError> {
        let (number, _) = self.bases.insert_full(Vec::from_slice(self.heap, name)?)?;
        Ok(as_number(number))
    }

    // A name as default: a row of the template, else a template, else a base type.
    fn named_mark(&mut self, rows: &[RowText], name: &[u8]) -> Result<Mark, AllocError> {
        if let Some(i) = row_of(rows, name) {
            return Ok(Mark::Ref(as_number(i)));
        }
        if let Some(number) = template_of(&self.templates, name) {
            return Ok(Mark::Head(number));
        }
        Ok(Mark::Base(self.base_of(name)?))
    }

    // The mark of each row's default; a row without one has a mark that is not used. A list beside the rows, since a
    // declared row borrows its marks.
    fn marks_of(&mut self, rows: &[RowText]) -> Result<Vec<Mark>, AllocError> {
        let mut marks = Vec::new(self.heap);
        for row in rows {
            marks.push(match row.default {
                None | Some(Word::Static) => Mark::Region(0),
                Some(Word::Number(value)) => Mark::Value(value),
                Some(Word::Name(part) | Word::Lifetime(part)) => self.named_mark(
                    rows,
                    part.text(),
                )?,
            })?;
        }
        Ok(marks)
    }

    fn take_template(&mut self, rt: &impl Print, part: Part) -> io::Result<()> {
        let line = part.line;
        let template = match read_template(self.heap, part, &self.templates) {
            Ok(template) => template,
            Err(e) => return line.tell_unread(rt, e),
        };
        let name = template.name;
        let marks = self.marks_of(&template.rows)?;
        let params = params_of(self.heap, &template.rows, &marks)?;
        let declaration = Declaration::bare(GenericDefKind::Adt, None, &params);
        match self.catalogue.declare(declaration) {
            Ok(def) => {
                let known = Vec::from_slice(self.heap, name)?;
                self.templates.push(Template {
                    name: known,
                    number: def,
                })?;
                line.tell_declared(rt, name, def, template.rows.len())?;
                let unwritten = Unwritten {
                    cat: &self.catalogue,
                    def,
                    number: line.number,
                    rows: &template.rows,
                    templates: &self.templates,
                    bases: &self.bases,
                };
                unwritten.tell(rt, self.heap)
            }
            Err(refusal) => line.tell_refused(rt, name, refusal),
        }
    }

    fn take_path(&mut self, rt: &impl Print, part: Part) -> io::Result<()> {
        let line = part.line;
        let path = match read_path(self.heap, part) {
            Ok(path) => path,
            Err(e) => return line.tell_unread(rt, e),
        };
        let resolved = resolve(&self.templates, line.text, &path.names);
        let mut reports = OwnReports::new();
        match check_path(&path.segments, resolved.resolution, &mut reports) {
            Ok(checked) => {
                let told = Told {
                    line,
                    path: &path,
                    segment: checked.segment(),
                };
                told.all(rt, resolved.meant, &reports)
            }
            Err(refusal) => line.tell_unchecked(rt, refusal),
        }
    }

    // Does what the line says, and tells what was done.
    pub(crate) fn take_line(&mut self, rt: &impl Print, line: Line) -> io::Result<()> {
        let part = Part::whole(line).trimmed();
        let text = part.text();
        if text.is_empty() || text.starts_with(b"#") {
            return Ok(());
        }
        if let Some(section) = headed(text) {
            self.section = Some(section);
            return Ok(());
        }
        match self.section {
            None => line.tell_unread(rt, part.unreadable(Reason::Heading)),
            Some(Section::Templates) => self.take_template(rt, part),
            Some(Section::Schedule) => self.take_path(rt, part),
        }
    }
}
