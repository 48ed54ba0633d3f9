// The variables of the variable lowerer.
use crate::words::*;
use definitions::kinds::Kind;
use diagnostics::list::ReportList;
use generics::catalogue::Catalogue;
use lowerer::entry::Entry;
use lowerer::makings::GenericArgsLowerer;
use lowerer::meaning::Source;
use lowerers::variables::{VariableArg, VariableLowerer};
use path::args::{Form, GenericArg};
use std::process::Abort;
use std::test::Fail;

fn is_numbered(rt: &impl Abort, entry: VariableArg, variable: Option<u32>) {
    assert_eq!(rt; entry.variable(), variable);
    assert_eq!(rt; entry.default_of(), None);
}

fn is_named(rt: &impl Abort, entry: VariableArg, def: u32, place: usize) {
    assert_eq!(rt; entry.variable(), None);
    assert_eq!(rt; entry.default_of(), Some(at(def, place)));
}

// Parents and unknowns are numbered in order of making, also where the row is none of the catalogue's; defaults are
// named.
fn numbered(
    rt: &impl Abort,
    lowerer: &mut VariableLowerer,
    cat: &Catalogue,
    before: &[VariableArg],
) {
    let unknown = lowerer.inferred_kind(cat, at(FUNCTION, 0), false, before);
    let parent = lowerer.parent_arg(cat, at(FUNCTION, 1));
    let default = lowerer.inferred_kind(cat, at(FUNCTION, 9), false, before);
    let infers = lowerer.inferred_kind(cat, at(FUNCTION, 9), true, before);
    let stranger = lowerer.parent_arg(cat, at(u32::MAX, 0));
    let past = lowerer.inferred_kind(cat, at(PLAIN, usize::MAX), false, before);
    is_numbered(rt, unknown, Some(0));
    is_numbered(rt, parent, Some(1));
    is_named(rt, default, FUNCTION, 9);
    is_numbered(rt, infers, Some(2));
    is_numbered(rt, stranger, Some(3));
    is_numbered(rt, past, Some(4));
    has_stock(rt, lowerer, 251);
}

// A default is named by the definition that it was asked for, though the row is the parent's.
fn named(rt: &impl Abort, lowerer: &mut VariableLowerer, cat: &Catalogue, before: &[VariableArg]) {
    let own = lowerer.inferred_kind(cat, at(TRAIT, 4), false, before);
    let inherited = lowerer.inferred_kind(cat, at(FUNCTION, 4), false, before);
    let first = lowerer.inferred_kind(cat, at(DEFAULTED, 0), false, &[]);
    is_named(rt, own, TRAIT, 4);
    is_named(rt, inherited, FUNCTION, 4);
    is_named(rt, first, DEFAULTED, 0);
    has_stock(rt, lowerer, 256);
}

#[test]
fn numbers_and_names(rt: HostRuntime) -> Result<(), Fail> {
    let cat = stocked(&rt, rt.alloc())?;
    let mut lowerer = VariableLowerer::new();
    let before = filled(rt.alloc(), &mut lowerer, b"TLTC")?;
    named(&rt, &mut lowerer, &cat, &before);
    let before = filled(rt.alloc(), &mut lowerer, b"TLTCTCLTC")?;
    numbered(&rt, &mut lowerer, &cat, &before);
    Ok(())
}

// A written argument that does not agree is unknown and has no variable, nor has anything else that is handed over.
fn handed_over(rt: &impl Abort, lowerer: &mut VariableLowerer, cat: &Catalogue) {
    for form in [Form::Lifetime, Form::Type] {
        let arg = GenericArg { form, handle: 8 };
        is_numbered(rt, lowerer.provided_kind(cat, at(PLAIN, 0), arg), None);
        is_numbered(rt, lowerer.provided_kind(cat, at(NEXT, 0), arg), None);
    }
    is_numbered(rt, lowerer.provided_type_like_const(8), None);
    is_numbered(rt, lowerer.explicit_arg(8), None);
    is_numbered(rt, lowerer.elided_arg(8), None);
    has_stock(rt, lowerer, 256);
    is_numbered(rt, lowerer.parent_arg(cat, at(PLAIN, 0)), Some(0));
}

// Clear gives no variable back.
fn cleared(rt: &impl Abort, lowerer: &mut VariableLowerer, cat: &Catalogue) {
    let first = lowerer.parent_arg(cat, at(PLAIN, 0));
    lowerer.clear();
    has_stock(rt, lowerer, 255);
    is_numbered(rt, first, Some(0));
    is_numbered(rt, lowerer.parent_arg(cat, at(PLAIN, 0)), Some(1));
}

#[test]
fn without_numbers(rt: HostRuntime) -> Result<(), Fail> {
    let cat = stocked(&rt, rt.alloc())?;
    handed_over(&rt, &mut VariableLowerer::new(), &cat);
    cleared(&rt, &mut VariableLowerer::new(), &cat);
    Ok(())
}

// Takes every variable, the even ones by parent and the odd ones by inferred.
fn take_all(rt: &impl Abort, lowerer: &mut VariableLowerer, cat: &Catalogue) {
    for number in 0..256u32 {
        let entry = if number % 2 == 0 {
            lowerer.parent_arg(cat, at(PLAIN, 0))
        } else {
            lowerer.inferred_kind(cat, at(PLAIN, 0), true, &[])
        };
        is_numbered(rt, entry, Some(number));
        has_stock(rt, lowerer, (255 - number) as usize);
    }
}

// With no variable left entries are unknown and have none, whichever making makes them; no default is named either.
fn after_all(rt: &impl Abort, lowerer: &mut VariableLowerer, cat: &Catalogue) {
    let parent = lowerer.parent_arg(cat, at(TRAIT, 1));
    is_meant(rt, parent.meaning(), Kind::Lifetime, Source::Unknown);
    is_numbered(rt, parent, None);
    let default = lowerer.inferred_kind(cat, at(DEFAULTED, 0), false, &[]);
    is_meant(rt, default.meaning(), Kind::Type, Source::Unknown);
    is_numbered(rt, default, None);
    is_numbered(rt, lowerer.parent_arg(cat, at(NEXT, 9)), None);
    has_stock(rt, lowerer, 0);
}

#[test]
fn all_taken(rt: HostRuntime) -> Result<(), Fail> {
    let cat = stocked(&rt, rt.alloc())?;
    let mut lowerer = VariableLowerer::new();
    let before = lowerer.inferred_kind(&cat, at(DEFAULTED, 0), false, &[]);
    take_all(&rt, &mut lowerer, &cat);
    after_all(&rt, &mut lowerer, &cat);
    lowerer.clear();
    after_all(&rt, &mut lowerer, &cat);
    is_named(&rt, before, DEFAULTED, 0);
    Ok(())
}

// With one variable left a default is still a default and takes none; an unknown then takes the last.
fn at_last(rt: &impl Abort, lowerer: &mut VariableLowerer, cat: &Catalogue) {
    spend(lowerer, cat, 255);
    has_stock(rt, lowerer, 1);
    let default = lowerer.inferred_kind(cat, at(DEFAULTED, 0), false, &[]);
    is_meant(rt, default.meaning(), Kind::Type, Source::Default);
    is_named(rt, default, DEFAULTED, 0);
    has_stock(rt, lowerer, 1);
    let unknown = lowerer.inferred_kind(cat, at(NEXT, 0), false, &[]);
    is_meant(rt, unknown.meaning(), Kind::Type, Source::Unknown);
    is_numbered(rt, unknown, Some(255));
    has_stock(rt, lowerer, 0);
    after_all(rt, lowerer, cat);
}

#[test]
fn last_variable(rt: HostRuntime) -> Result<(), Fail> {
    let cat = stocked(&rt, rt.alloc())?;
    at_last(&rt, &mut VariableLowerer::new(), &cat);
    Ok(())
}
