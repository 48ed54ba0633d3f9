// Rows counted, and named.
ghost use Rattle.std.specs.Prelude.{◌≡◌, ◌≤◌, List, map, length};
ghost use Rattle.definitions.specs.declared.kinds.Mark.{Mark};
ghost use Rattle.generics.specs.Held.{kinds_held};
ghost use Rattle.generics.specs.Lays.{param_of};
ghost use Rattle.places.specs.Places.{defaulted, name_in};

use definitions::kinds::GenericParamId;
use generics::stored::Row;

// The name of a definition's own row.
pub(crate) fn name_in(def: u32, rows: &[Row], i: usize) -> Option<GenericParamId>
    requires { length rows.now ≤ 32 }
    ensures { result ≡ name_in def (kinds_held rows.now) i }
{
    let lifetime = rows.get(i)?.kind.is_lifetime();
    let alike = rows[..i]
        .iter()
        .filter(|row| row.kind.is_lifetime() == lifetime)
        .count();
    Some(GenericParamId {
        def,
        lifetime,
        local: alike as u32,
    })
}

// How many rows have a default.
pub(crate) fn count_defaulted(rows: &[Row]) -> usize
    ensures { (marks : List Mark) → result ≡ defaulted (map (param_of marks) rows.now) }
{
    rows.iter().filter(|row| row.default.is_some()).count()
}
