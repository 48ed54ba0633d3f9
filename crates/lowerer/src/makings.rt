// The trait of lowerers.
ghost use Rattle.std.specs.Prelude.{◌≡◌};
ghost use Rattle.diagnostics.specs.Tells.{View};
ghost use Rattle.generics.specs.Held.{held};
ghost use Rattle.lowerer.specs.declared.meaning.Meaning.{Meaning as Meant};
ghost use Rattle.lowerer.specs.Meanings.{elided_as, explicit_as, inferred_as, kinds_by, parent_as, provided_as, type_like_as};
ghost use Rattle.lowerer.specs.Spends.{Spent, Untouched};

use crate::meaning::ParamPlace;
use definitions::kinds::Kind;
use diagnostics::list::ReportList;
use generics::catalogue::Catalogue;
use path::args::GenericArg;

// A report list that makes entries of a type of its own. Each making says what its entry means. None refuses, none
// touches reports or room, and the stock is lowered by `inferred_kind` and `parent_arg` alone, by one or not at
// all. A row that is none of the catalogue's gives an entry of kind type, unknown.
pub trait GenericArgsLowerer: ReportList {
    type Arg: Copy;

    // What an entry means; it does not depend on what the lowerer does later.
    ghost meaning: { Self.Arg → Meant };

    // A written argument at a row: supplied with its handle if the two agree, else unknown.
    fn provided_kind(&mut self, cat: &Catalogue, row: ParamPlace, arg: GenericArg) -> Self::Arg
        ensures entry { meaning result ≡ provided_as (held cat.now) row arg }
        ensures state { Untouched (Self.ReportList.view self.old) (Self.ReportList.view self.new) };

    // A path or a placeholder that stands for a constant: supplied with its handle.
    fn provided_type_like_const(&mut self, handle: u32) -> Self::Arg
        ensures entry { meaning result ≡ type_like_as handle }
        ensures state { Untouched (Self.ReportList.view self.old) (Self.ReportList.view self.new) };

    // A row for which nothing is written: its default if inference is off, the row has one, the stock is above 0 and
    // the entries handed along fill the places before it kind by kind; else unknown.
    fn inferred_kind(
        &mut self,
        cat: &Catalogue,
        row: ParamPlace,
        infer: bool,
        preceding: &[Self::Arg],
    ) -> Self::Arg
        ensures entry { meaning result ≡ inferred_as (held cat.now) row infer (kinds_by meaning preceding.now) (Self.ReportList.view self.old).stock }
        ensures state { Spent (Self.ReportList.view self.old) (Self.ReportList.view self.new) };

    // A row of the parent: parent, or unknown at stock 0.
    fn parent_arg(&mut self, cat: &Catalogue, row: ParamPlace) -> Self::Arg
        ensures entry { meaning result ≡ parent_as (held cat.now) row (Self.ReportList.view self.old).stock }
        ensures state { Spent (Self.ReportList.view self.old) (Self.ReportList.view self.new) };

    // A Self type that was handed over and not written.
    fn explicit_arg(&mut self, handle: u32) -> Self::Arg
        ensures entry { meaning result ≡ explicit_as handle }
        ensures state { Untouched (Self.ReportList.view self.old) (Self.ReportList.view self.new) };

    // A lifetime that was left out, with the region that elision puts in.
    fn elided_arg(&mut self, region: u32) -> Self::Arg
        ensures entry { meaning result ≡ elided_as region }
        ensures state { Untouched (Self.ReportList.view self.old) (Self.ReportList.view self.new) };

    fn kind_of(&self, entry: &Self::Arg) -> Kind
        ensures { result ≡ (meaning entry.now).kind };
}
