// The catalogue at each of its limits.
use crate::words::{BASE, adt, alias, bodied, row, row_or};
use definitions::kinds::{GenericDefKind, Mark, RowKind};
use generics::catalogue::Catalogue;
use std::test::Fail;

#[test]
fn rows_of_one_definition(rt: HostRuntime) -> Result<(), Fail> {
    let mut cat = Catalogue::new(rt.alloc())?;
    let rows = [row(RowKind::Type); 33];
    assert_eq!(rt; adt(&mut cat, &rows[0..32]), Ok(0));
    assert_eq!(rt; adt(&mut cat, &rows), Err(2));
    assert_eq!(rt; cat.len(), 1);
    Ok(())
}

// Too many rows are refused before a misplaced default is.
#[test]
fn rows_before_defaults(rt: HostRuntime) -> Result<(), Fail> {
    let mut cat = Catalogue::new(rt.alloc())?;
    let mut rows = [row(RowKind::Type); 33];
    rows[0] = row_or(RowKind::Type, BASE);
    assert_eq!(rt; adt(&mut cat, &rows), Err(2));
    assert_eq!(rt; adt(&mut cat, &rows[0..2]), Err(3));
    Ok(())
}

// 32 marks are the head of a type with 31 rows and its slots; a type with 32 rows would make 33.
#[test]
fn marks_of_one_term(rt: HostRuntime) -> Result<(), Fail> {
    let mut cat = Catalogue::new(rt.alloc())?;
    let rows = [row(RowKind::Type); 32];
    assert_eq!(rt; adt(&mut cat, &rows[0..31]), Ok(0));
    assert_eq!(rt; adt(&mut cat, &rows), Ok(1));
    let mut marks = [Mark::Base(0); 33];
    marks[0] = Mark::Head(0);
    assert_eq!(rt; alias(&mut cat, &rows[0..0], &marks[0..32]), Ok(2));
    marks[0] = Mark::Head(1);
    assert_eq!(rt; alias(&mut cat, &rows[0..0], &marks), Err(4));
    assert_eq!(rt; alias(&mut cat, &rows[0..0], &marks[0..0]), Err(4));
    Ok(())
}

#[test]
fn definitions_of_one_catalogue(rt: HostRuntime) -> Result<(), Fail> {
    let mut cat = Catalogue::new(rt.alloc())?;
    let rows = [row(RowKind::Type); 1];
    for i in 0..64u32 {
        assert_eq!(rt; adt(&mut cat, &rows[0..0]), Ok(i));
    }
    assert_eq!(rt; adt(&mut cat, &rows[0..0]), Err(5));
    assert_eq!(rt;
        bodied(&mut cat, GenericDefKind::Adt, None, &rows, BASE),
        Err(4)
    );
    assert_eq!(rt; cat.len(), 64);
    Ok(())
}

#[test]
fn rows_of_one_catalogue(rt: HostRuntime) -> Result<(), Fail> {
    let mut cat = Catalogue::new(rt.alloc())?;
    let rows = [row(RowKind::Const); 32];
    for i in 0..15u32 {
        assert_eq!(rt; adt(&mut cat, &rows), Ok(i));
    }
    assert_eq!(rt; adt(&mut cat, &rows[0..31]), Ok(15));
    assert_eq!(rt; adt(&mut cat, &rows[0..2]), Err(5));
    assert_eq!(rt; adt(&mut cat, &rows[0..1]), Ok(16));
    assert_eq!(rt; adt(&mut cat, &rows[0..1]), Err(5));
    assert_eq!(rt; adt(&mut cat, &rows[0..0]), Ok(17));
    Ok(())
}

// 2,048 marks are 64 defaults of 32 marks each.
#[test]
fn marks_of_one_catalogue(rt: HostRuntime) -> Result<(), Fail> {
    let mut cat = Catalogue::new(rt.alloc())?;
    let plain = [row(RowKind::Type); 31];
    assert_eq!(rt; adt(&mut cat, &plain), Ok(0));
    let mut marks = [Mark::Base(0); 32];
    marks[0] = Mark::Head(0);
    let full = [row_or(RowKind::Type, &marks); 32];
    assert_eq!(rt; adt(&mut cat, &full), Ok(1));
    assert_eq!(rt; adt(&mut cat, &full[0..31]), Ok(2));
    assert_eq!(rt; alias(&mut cat, &full[0..1], BASE), Err(5));
    assert_eq!(rt; adt(&mut cat, &full[0..1]), Ok(3));
    assert_eq!(rt; alias(&mut cat, &plain, BASE), Err(5));
    assert_eq!(rt; adt(&mut cat, &plain), Ok(4));
    Ok(())
}
