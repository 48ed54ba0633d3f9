// What both lowerers make alike, over what each makes its entries with.
ghost use Rattle.std.specs.Prelude.{◌≡◌, ◌<◌, true, List, length, Option, Some, None};
ghost use Rattle.definitions.specs.declared.kinds.Mark.{Mark as DefaultMark};
ghost use Rattle.generics.specs.Held.{held};
ghost use Rattle.lowerer.specs.declared.meaning.ParamPlace.{ParamPlace as RowPlace};
ghost use Rattle.lowerer.specs.declared.meaning.Source.TheVariants.{Default};
ghost use Rattle.lowerer.specs.Meanings.{elided_as, explicit_as, inferred_as, kinds_by, parent_as, provided_as, type_like_as};
ghost use Rattle.lowerer.specs.Spends.{OneLess, Spent, Untouched};
ghost use Rattle.lowerers.specs.declared.entries.Made.{Made as Entry};
ghost use Rattle.lowerers.specs.Entries.{default_made, is_open, meant_by, NothingKept, Reaches};
ghost use Rattle.lowerers.specs.Shown.{view_by};

use crate::entries::Made;
use crate::lowering::{Lowering, Stocked};
use definitions::kinds::{Kind, Mark};
use diagnostics::list::ReportList;
use generics::catalogue::Catalogue;
use lowerer::defaults::default_for;
use lowerer::makings::GenericArgsLowerer;
use lowerer::meaning::{Meaning, ParamPlace, Source};
use path::args::GenericArg;

// What entries of rows for which nothing is written are made with: how a default is kept, and how an entry that is
// unknown or the parent's.
pub trait Makes: Stocked {
    type Kept: Copy;

    // What a making does for the marks of a default, if its entry is one: of which row, after which entries, from what
    // to what, and giving which entry.
    ghost Infers: { Option (List DefaultMark) → RowPlace → List (Entry Self.Kept) → Self → Self → Entry Self.Kept → Type 0 };

    // The same for a row of the parent.
    ghost Opens: { RowPlace → Self → Self → Entry Self.Kept → Type 0 };

    // The entry of a row's default, whose refs are to the entries before it.
    fn default_entry(
        &mut self,
        meaning: Meaning,
        row: ParamPlace,
        marks: &[Mark],
        entries: &[Made<Self::Kept>],
    ) -> Made<Self::Kept>
        requires stocked { 0 < Self.left self.old }
        requires marks { Reaches (length entries.now) marks.now }
        requires source { meaning.source ≡ Default }
        ensures meaning { meant_by result ≡ meaning }
        ensures stock { OneLess (Self.left self.old) (Self.left self.new) }
        ensures infers { Infers (Some marks.now) row entries.now self.old self.new result };

    // The entry of a row that is unknown or the parent's.
    fn open_entry(&mut self, meaning: Meaning) -> Made<Self::Kept>
        requires { is_open meaning.source ≡ true }
        ensures meaning { meant_by result ≡ meaning }
        ensures stock { OneLess (Self.left self.old) (Self.left self.new) }
        ensures infers { (row : RowPlace) (entries : List (Entry Self.Kept)) → Infers None row entries self.old self.new result }
        ensures opens { (row : RowPlace) → Opens row self.old self.new result };
}

// A row for which nothing is written may change what entries are made with; nothing else does.
impl<M: Makes> GenericArgsLowerer for Lowering<M> {
    type Arg = Made<M::Kept>;

    ghost meaning = { meant_by };

    fn provided_kind(&mut self, cat: &Catalogue, row: ParamPlace, arg: GenericArg) -> Made<M::Kept>
        ensures entry { meant_by result ≡ provided_as (held cat.now) row arg }
        ensures state { Untouched (view_by M.Stocked.left self.old) (view_by M.Stocked.left self.new) }
        ensures plain { NothingKept result }
        ensures same { self.new ≡ self.old }
    {
        Made::plain(Meaning::provided(cat, row, arg))
    }

    fn provided_type_like_const(&mut self, handle: u32) -> Made<M::Kept>
        ensures entry { meant_by result ≡ type_like_as handle }
        ensures state { Untouched (view_by M.Stocked.left self.old) (view_by M.Stocked.left self.new) }
        ensures plain { NothingKept result }
        ensures same { self.new ≡ self.old }
    {
        Made::plain(Meaning::type_like_const(handle))
    }

    fn inferred_kind(
        &mut self,
        cat: &Catalogue,
        row: ParamPlace,
        infer: bool,
        preceding: &[Made<M::Kept>],
    ) -> Made<M::Kept>
        ensures entry { meant_by result ≡ inferred_as (held cat.now) row infer (kinds_by meant_by preceding.now) (M.Stocked.left self.old.makes) }
        ensures state { Spent (view_by M.Stocked.left self.old) (view_by M.Stocked.left self.new) }
        ensures makes { M.Makes.Infers (default_made (held cat.now) row infer (kinds_by meant_by preceding.now) (M.Stocked.left self.old.makes)) row preceding.now self.old.makes self.new.makes result }
        ensures reports { self.new.reports ≡ self.old.reports }
    {
        let stocked = self.makes.stock() > 0;
        match default_for(cat, row, infer, preceding).filter(|_| stocked) {
            Some(marks) => {
                let meaning = Meaning::at_row(cat, row, Source::Default);
                self.makes.default_entry(meaning, row, marks, preceding)
            }
            None => {
                let meaning = Meaning::at_row(cat, row, Source::Unknown);
                self.makes.open_entry(meaning)
            }
        }
    }

    fn parent_arg(&mut self, cat: &Catalogue, row: ParamPlace) -> Made<M::Kept>
        ensures entry { meant_by result ≡ parent_as (held cat.now) row (M.Stocked.left self.old.makes) }
        ensures state { Spent (view_by M.Stocked.left self.old) (view_by M.Stocked.left self.new) }
        ensures makes { M.Makes.Opens row self.old.makes self.new.makes result }
        ensures reports { self.new.reports ≡ self.old.reports }
    {
        let source = if self.makes.stock() > 0 {
            Source::Parent
        } else {
            Source::Unknown
        };
        self.makes.open_entry(Meaning::at_row(cat, row, source))
    }

    fn explicit_arg(&mut self, handle: u32) -> Made<M::Kept>
        ensures entry { meant_by result ≡ explicit_as handle }
        ensures state { Untouched (view_by M.Stocked.left self.old) (view_by M.Stocked.left self.new) }
        ensures plain { NothingKept result }
        ensures same { self.new ≡ self.old }
    {
        Made::plain(Meaning::explicit(handle))
    }

    fn elided_arg(&mut self, region: u32) -> Made<M::Kept>
        ensures entry { meant_by result ≡ elided_as region }
        ensures state { Untouched (view_by M.Stocked.left self.old) (view_by M.Stocked.left self.new) }
        ensures plain { NothingKept result }
        ensures same { self.new ≡ self.old }
    {
        Made::plain(Meaning::elided(region))
    }

    fn kind_of(&self, entry: &Made<M::Kept>) -> Kind {
        entry.meaning.kind
    }
}
