// What the rows of a template would be if nothing were written.
use crate::line::shown;
use crate::templates::RowText;
use definitions::kinds::Mark;
use generics::catalogue::Catalogue;
use indexmap::IndexSet;
use lowerers::terms::{LowererCtx, TermArg};
use lowerers::variables::VariableLowerer;
use naming::known::Template;
use nothing_written::entries_of;
use pieces::Piece;
use places::view::Generics;
use std::alloc::Global;
use std::io;

// A declared template: its definition in the catalogue, the number of its line, its rows, and the names that its
// defaults use.
#[derive(Drop)]
pub struct Unwritten<'a> {
    pub cat: &'a Catalogue,
    pub def: u32,
    pub number: usize,
    pub rows: &'a [RowText<'a>],
    pub templates: &'a [Template],
    pub bases: &'a IndexSet<Vec<u8>>,
}

impl<'a> Unwritten<'a> {
    fn row_name(&self, place: usize) -> &'a str {
        self.rows.get(place).map_or("?", |row| shown(row.name))
    }

    fn template_name(&self, def: u32) -> &'a str {
        self.templates
            .iter()
            .find(|template| template.number == def)
            .map_or("?", |template| shown(&template.name))
    }

    fn base_name(&self, base: u32) -> &'a str {
        self.bases
            .get_index(base as usize)
            .map_or("?", |name| shown(name))
    }

    // A mark, by the name that it was written with.
    fn tell_mark(&self, rt: &impl Print, mark: Mark) -> io::Result<()> {
        match mark {
            Mark::Ref(place) => {
                let name = self.row_name(place as usize);
                print!(rt; " `{name}`")
            }
            Mark::Head(def) => {
                let name = self.template_name(def);
                print!(rt; " `{name}`")
            }
            Mark::Base(base) => {
                let name = self.base_name(base);
                print!(rt; " `{name}`")
            }
            Mark::Value(value) => print!(rt; " {value}"),
            Mark::Region(0) => print!(rt; " 'static"),
            Mark::Region(region) => print!(rt; " region {region}"),
        }
    }

    // The pieces of a default; an entry among them is that of the row to which the default's mark refers.
    fn tell_default(
        &self,
        rt: &impl Print,
        place: usize,
        marks: &[Mark],
        pieces: &[Piece<TermArg>],
    ) -> io::Result<()> {
        let number = self.number;
        let name = self.row_name(place);
        print!(rt; "{number}:   `{name}` is its default:")?;
        for (piece, mark) in pieces.iter().zip(marks) {
            match *piece {
                Piece::Mark(mark) => self.tell_mark(rt, mark)?,
                Piece::Entry(_) => {
                    print!(rt; " the same as")?;
                    self.tell_mark(rt, *mark)?;
                }
            }
        }
        println!(rt; "")
    }

    fn tell_unknown(&self, rt: &impl Print, place: usize, variable: Option<u32>) -> io::Result<()> {
        let number = self.number;
        let name = self.row_name(place);
        match variable {
            Some(variable) => println!(rt;
                "{number}:   `{name}` is not known: variable {variable}"
            ),
            None => println!(rt; "{number}:   `{name}` is not known, and no variable is left"),
        }
    }

    // A line for each row, under a heading.
    pub(crate) fn tell(&self, rt: &impl Print, heap: Global) -> io::Result<()> {
        let number = self.number;
        let rows = Generics::of(self.cat, self.def);
        if self.rows.is_empty() {
            return Ok(());
        }
        let mut numbers = VariableLowerer::new();
        let mut store = [Piece::Mark(Mark::Region(0)); 2048];
        let mut terms = LowererCtx::new(&mut store);
        let unknown = entries_of(heap, self.cat, self.def, &mut numbers)?;
        let spelled = entries_of(heap, self.cat, self.def, &mut terms)?;
        println!(rt; "{number}: if nothing is written:")?;
        for (place, (entry, term)) in unknown.iter().zip(spelled.iter()).enumerate() {
            match (rows.default_at(place), terms.pieces(term)) {
                (Some(marks), Some(pieces)) => self.tell_default(rt, place, marks, pieces)?,
                _ => self.tell_unknown(rt, place, entry.variable())?,
            }
        }
        Ok(())
    }
}
