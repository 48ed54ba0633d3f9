// What a catalogue tells of its definitions: type `L T C` (0), trait `S L T` (1), function `L C T= I` in the trait (2),
// alias `T` with a body (3).
use crate::words::{BASE, adt, alias, rows_of, tried};
use definitions::kinds::{GenericDefKind, GenericParamId, Kind, RowKind};
use generics::catalogue::Catalogue;
use places::view::{Generics, Provenance};
use std::alloc::{AllocError, Global};
use std::test::Fail;

fn stocked(heap: Global) -> Result<Catalogue, AllocError> {
    let mut cat = Catalogue::new(heap)?;
    let rows = rows_of(heap, b"LTC")?;
    let _ = adt(&mut cat, &rows);
    let rows = rows_of(heap, b"SLT")?;
    let _ = tried(&mut cat, GenericDefKind::Trait, None, &rows);
    let rows = rows_of(heap, b"LCtI")?;
    let _ = tried(&mut cat, GenericDefKind::Function, Some(1), &rows);
    let rows = rows_of(heap, b"T")?;
    let _ = alias(&mut cat, &rows, BASE);
    Ok(cat)
}

fn name(def: u32, lifetime: bool, local: u32) -> Option<GenericParamId> {
    Some(GenericParamId {
        def,
        lifetime,
        local,
    })
}

#[test]
fn lengths(rt: HostRuntime) -> Result<(), Fail> {
    let cat = stocked(rt.alloc())?;
    assert_eq!(rt; cat.len(), 4);
    let function = Generics::of(&cat, 2);
    assert_eq!(rt; function.kind(), Some(GenericDefKind::Function));
    assert_eq!(rt; function.parent(), Some(1));
    assert_eq!(rt; function.len_parent(), 3);
    assert_eq!(rt; function.len_self(), 4);
    assert_eq!(rt; function.len(), 7);
    let sorts = Provenance {
        parent: 3,
        trait_self: 0,
        lifetimes: 1,
        named: 2,
        defaulted: 1,
        impl_traits: 1,
    };
    assert_eq!(rt; function.provenance_split(), sorts);
    assert_eq!(rt; Generics::of(&cat, 0).parent(), None);
    let nothing = Generics::of(&cat, 4);
    assert_eq!(rt; nothing.kind(), None);
    assert_eq!(rt; nothing.len(), 0);
    Ok(())
}

#[test]
fn places(rt: HostRuntime) -> Result<(), Fail> {
    let cat = stocked(rt.alloc())?;
    let function = Generics::of(&cat, 2);
    assert_eq!(rt; function.row_kind(0), Some(RowKind::TraitSelf));
    assert_eq!(rt; function.row_kind(3), Some(RowKind::Lifetime));
    assert_eq!(rt; function.row_kind(6), Some(RowKind::ImplTrait));
    assert_eq!(rt; function.row_kind(7), None);
    assert_eq!(rt; function.kind_at(0), Some(Kind::Type));
    assert_eq!(rt; function.kind_at(1), Some(Kind::Lifetime));
    assert_eq!(rt; function.kind_at(4), Some(Kind::Const));
    assert_eq!(rt; function.kind_at(7), None);
    assert!(rt; function.default_at(5).is_some());
    assert!(rt; function.default_at(4).is_none());
    assert!(rt; function.default_at(7).is_none());
    assert!(rt; function.body().is_none());
    assert!(rt; Generics::of(&cat, 3).body().is_some());
    Ok(())
}

// Self is numbered with the types and constants, lifetimes alone; a parent's parameter keeps its name.
#[test]
fn names(rt: HostRuntime) -> Result<(), Fail> {
    let cat = stocked(rt.alloc())?;
    let function = Generics::of(&cat, 2);
    assert_eq!(rt; function.name_at(0), name(1, false, 0));
    assert_eq!(rt; function.name_at(1), name(1, true, 0));
    assert_eq!(rt; function.name_at(2), name(1, false, 1));
    assert_eq!(rt; function.name_at(3), name(2, true, 0));
    assert_eq!(rt; function.name_at(4), name(2, false, 0));
    assert_eq!(rt; function.name_at(6), name(2, false, 2));
    assert_eq!(rt; function.name_at(7), None);
    assert_eq!(rt; Generics::of(&cat, 1).name_at(2), name(1, false, 1));
    assert_eq!(rt; Generics::of(&cat, 9).name_at(0), None);
    Ok(())
}
