// The struct stands alone in its file: what is stated of it may not name specs that name it.
ghost use Rattle.std.specs.Prelude.{◌≤◌, vec_capacity};
ghost use Rattle.generics.specs.Lays.{definitions, Within, Counted};
ghost use Rattle.definitions.specs.Rules.{Lawful, Limited};

use crate::stored::{Def, Row};
use definitions::kinds::Mark;

// The declared definitions. Each follows the rules, so no catalogue that breaks them exists. Memory for 64
// definitions, 512 rows and 2,048 marks is reserved when it is made, so that declaring asks for none: that is why
// rows and marks lie in one list each, and not in lists of their definitions.
#[derive(Drop)]
pub struct Catalogue {
    pub(crate) defs: Vec<Def>,
    pub(crate) rows: Vec<Row>,
    pub(crate) marks: Vec<Mark>,
    ghost within: { Within defs.items rows.items marks.items },
    ghost counted: { Counted defs.items rows.items marks.items },
    ghost limited: { Limited (definitions defs.items rows.items marks.items) },
    ghost lawful: { Lawful (definitions defs.items rows.items marks.items) },
    ghost defs_room: { 64 ≤ vec_capacity defs },
    ghost rows_room: { 512 ≤ vec_capacity rows },
    ghost marks_room: { 2048 ≤ vec_capacity marks },
}
