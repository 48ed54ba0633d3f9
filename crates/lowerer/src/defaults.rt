// When an inferred entry is the row's default.
ghost use Rattle.std.specs.Prelude.{◌≡◌, length, take};
ghost use Rattle.std.specs.Option.{option_map};
ghost use Rattle.definitions.specs.Definitions.{kinds_of, whole_rows};
ghost use Rattle.generics.specs.Held.{held};
ghost use Rattle.places.specs.Views.{among, meant};
ghost use Rattle.lowerer.specs.Meanings.{default_for, fills, kinds_by, same_kinds, DefaultExactly};

use crate::entry::Entry;
use crate::meaning::ParamPlace;
use definitions::kinds::Mark;
use generics::catalogue::Catalogue;
use places::view::Generics;

// Whether the entries are of the kinds of the first places, one by one.
fn are_alike<E: Entry>(generics: Generics, entries: &[E]) -> bool
    ensures { result ≡ same_kinds (kinds_by E.Entry.means entries.now) (kinds_of (take (length entries.now) (whole_rows (among generics.entry) (meant generics.entry)))) }
{
    entries.iter().enumerate().all(|(i, entry)| Some(entry.meaning().kind) == generics.kind_at(i))
}

// Whether the entries fill the places before the row, each of its place's kind.
pub fn fill_before<E: Entry>(cat: &Catalogue, row: ParamPlace, preceding: &[E]) -> bool
    ensures { result ≡ fills (held cat.now) row (kinds_by E.Entry.means preceding.now) }
{
    let generics = Generics::of(cat, row.def);
    preceding.len() == row.place.min(generics.len()) && are_alike(generics, preceding)
}

// The marks of the default that an inferred entry stands for where stock is left, if it stands for one: inference is
// off, the row has a default, and the entries fill the places before it.
#[tactic(auto, using(crate::proofs::Defaulting::default_exactly))]
pub fn default_for<'a, E: Entry>(
    cat: &'a Catalogue,
    row: ParamPlace,
    infer: bool,
    preceding: &[E],
) -> Option<&'a [Mark]>
    ensures marks { option_map (λ x. x.now) result ≡ default_for (held cat.now) row infer (kinds_by E.Entry.means preceding.now) }
    ensures exactly { DefaultExactly }
{
    Generics::of(cat, row.def)
        .default_at(row.place)
        .filter(|_| !infer && fill_before(cat, row, preceding))
}
