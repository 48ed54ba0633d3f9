// Reading the text of a schedule: lists are cut at their separators, and pieces are told apart by their form.
//
// A text is a line, or a part of one, as bytes. The brackets `<>`, `()`, `[]` and `{}` nest. They are counted
// and not told apart, so `(A]` passes for closed; inside `{}` a `<` or a `>` counts as a bracket too. The `>` of
// `->` is no bracket. What stands between double quotes, and in a quoted character, is hidden from the count; so
// `','` and `"a, b"` are one argument each. A quoted character is an apostrophe, one character or an escape, and an
// apostrophe; `'a` is a lifetime. An apostrophe right behind a name, and a quoted character that does not end, cannot
// be read, so that no stray apostrophe hides a comma.
#![tactic(auto)]

pub mod blanks;
pub mod cutting;
pub mod faults;
pub mod forms;
pub mod lists;
pub mod names;
mod scanning;
mod shapes;
#[cfg(test)]
mod tests;
