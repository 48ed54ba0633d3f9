// Each refusal, and its place before the next ones.
use crate::words::{BASE, adt, alias, bodied, row, row_or, rows_of, tried};
use definitions::kinds::{GenericDefKind, Mark, RowKind};
use generics::catalogue::Catalogue;
use std::alloc::{AllocError, Global};
use std::test::Fail;

// A declaration without body, and what it answers, after type `T` (0), trait `S T` (1), impl `T` (2), alias `T` (3).
struct Case {
    kind: GenericDefKind,
    parent: Option<u32>,
    rows: &'static [u8],
    answer: Result<u32, u32>,
}

fn stocked(heap: Global) -> Result<Catalogue, AllocError> {
    let mut cat = Catalogue::new(heap)?;
    let own = [row(RowKind::TraitSelf), row(RowKind::Type)];
    let _ = adt(&mut cat, &own[1..2]);
    let _ = tried(&mut cat, GenericDefKind::Trait, None, &own);
    let _ = tried(&mut cat, GenericDefKind::Impl, None, &own[1..2]);
    let _ = alias(&mut cat, &own[1..2], BASE);
    Ok(cat)
}

const CASES: [Case; 34] = [
    // a parent
    Case {
        kind: GenericDefKind::Adt,
        parent: Some(1),
        rows: b"T",
        answer: Err(1),
    },
    Case {
        kind: GenericDefKind::Trait,
        parent: Some(1),
        rows: b"S",
        answer: Err(1),
    },
    Case {
        kind: GenericDefKind::Impl,
        parent: Some(2),
        rows: b"T",
        answer: Err(1),
    },
    Case {
        kind: GenericDefKind::Function,
        parent: Some(4),
        rows: b"T",
        answer: Err(1),
    },
    Case {
        kind: GenericDefKind::Function,
        parent: Some(0),
        rows: b"T",
        answer: Err(1),
    },
    Case {
        kind: GenericDefKind::Const,
        parent: Some(3),
        rows: b"",
        answer: Err(1),
    },
    Case {
        kind: GenericDefKind::Function,
        parent: Some(1),
        rows: b"LTCI",
        answer: Ok(4),
    },
    Case {
        kind: GenericDefKind::Const,
        parent: Some(2),
        rows: b"",
        answer: Ok(4),
    },
    // a parent is tried before the rows
    Case {
        kind: GenericDefKind::Adt,
        parent: Some(1),
        rows: b"TL",
        answer: Err(1),
    },
    // rows
    Case {
        kind: GenericDefKind::Trait,
        parent: None,
        rows: b"",
        answer: Err(2),
    },
    Case {
        kind: GenericDefKind::Trait,
        parent: None,
        rows: b"T",
        answer: Err(2),
    },
    Case {
        kind: GenericDefKind::Trait,
        parent: None,
        rows: b"TS",
        answer: Err(2),
    },
    Case {
        kind: GenericDefKind::Trait,
        parent: None,
        rows: b"SS",
        answer: Err(2),
    },
    Case {
        kind: GenericDefKind::Trait,
        parent: None,
        rows: b"SLTC",
        answer: Ok(4),
    },
    Case {
        kind: GenericDefKind::Adt,
        parent: None,
        rows: b"ST",
        answer: Err(2),
    },
    Case {
        kind: GenericDefKind::Adt,
        parent: None,
        rows: b"TI",
        answer: Err(2),
    },
    Case {
        kind: GenericDefKind::Impl,
        parent: None,
        rows: b"I",
        answer: Err(2),
    },
    Case {
        kind: GenericDefKind::Adt,
        parent: None,
        rows: b"TL",
        answer: Err(2),
    },
    Case {
        kind: GenericDefKind::Function,
        parent: None,
        rows: b"LTIT",
        answer: Err(2),
    },
    Case {
        kind: GenericDefKind::Function,
        parent: None,
        rows: b"LCTI",
        answer: Ok(4),
    },
    // rows are tried before defaults
    Case {
        kind: GenericDefKind::Adt,
        parent: None,
        rows: b"tL",
        answer: Err(2),
    },
    // defaults
    Case {
        kind: GenericDefKind::Adt,
        parent: None,
        rows: b"l",
        answer: Err(3),
    },
    Case {
        kind: GenericDefKind::Trait,
        parent: None,
        rows: b"s",
        answer: Err(3),
    },
    Case {
        kind: GenericDefKind::Function,
        parent: None,
        rows: b"i",
        answer: Err(3),
    },
    Case {
        kind: GenericDefKind::Adt,
        parent: None,
        rows: b"tT",
        answer: Err(3),
    },
    Case {
        kind: GenericDefKind::Adt,
        parent: None,
        rows: b"ctC",
        answer: Err(3),
    },
    Case {
        kind: GenericDefKind::Adt,
        parent: None,
        rows: b"LLTct",
        answer: Ok(4),
    },
    Case {
        kind: GenericDefKind::Function,
        parent: None,
        rows: b"LtI",
        answer: Ok(4),
    },
    Case {
        kind: GenericDefKind::Impl,
        parent: None,
        rows: b"t",
        answer: Ok(4),
    },
    // defaults are tried before terms: an alias without body
    Case {
        kind: GenericDefKind::TypeAlias,
        parent: None,
        rows: b"tT",
        answer: Err(3),
    },
    // terms: a constant with a type as default, a type with a value
    Case {
        kind: GenericDefKind::Adt,
        parent: None,
        rows: b"x",
        answer: Err(4),
    },
    Case {
        kind: GenericDefKind::Adt,
        parent: None,
        rows: b"y",
        answer: Err(4),
    },
    Case {
        kind: GenericDefKind::TypeAlias,
        parent: None,
        rows: b"T",
        answer: Err(4),
    },
    Case {
        kind: GenericDefKind::TypeAlias,
        parent: Some(1),
        rows: b"",
        answer: Err(4),
    },
];

#[test]
fn each_refusal(rt: HostRuntime) -> Result<(), Fail> {
    for case in &CASES {
        let mut cat = stocked(rt.alloc())?;
        let rows = rows_of(rt.alloc(), case.rows)?;
        assert_eq!(rt; tried(&mut cat, case.kind, case.parent, &rows), case.answer);
    }
    Ok(())
}

// A body of an alias over the parameters `L T C`, and what declaring it answers.
const BODIES: [(&[Mark], Result<u32, u32>); 17] = [
    (&[], Err(4)),
    (&[Mark::Base(1)], Ok(4)),
    (&[Mark::Base(1), Mark::Base(1)], Err(4)),
    (&[Mark::Value(1)], Err(4)),
    (&[Mark::Region(0)], Err(4)),
    (&[Mark::Ref(0)], Err(4)),
    (&[Mark::Ref(1)], Ok(4)),
    (&[Mark::Ref(2)], Err(4)),
    (&[Mark::Ref(3)], Err(4)),
    (&[Mark::Head(0), Mark::Ref(1)], Ok(4)),
    (&[Mark::Head(0), Mark::Head(0), Mark::Base(2)], Ok(4)),
    (&[Mark::Head(0), Mark::Ref(0)], Err(4)),
    (&[Mark::Head(0)], Err(4)),
    (&[Mark::Head(0), Mark::Ref(1), Mark::Ref(1)], Err(4)),
    (&[Mark::Head(1), Mark::Ref(1), Mark::Ref(1)], Err(4)),
    (&[Mark::Head(3), Mark::Ref(1)], Err(4)),
    (&[Mark::Head(4), Mark::Ref(1)], Err(4)),
];

#[test]
fn bodies(rt: HostRuntime) -> Result<(), Fail> {
    let rows = rows_of(rt.alloc(), b"LTC")?;
    for (body, answer) in &BODIES {
        let mut cat = stocked(rt.alloc())?;
        assert_eq!(rt; alias(&mut cat, &rows, body), *answer);
    }
    let mut cat = stocked(rt.alloc())?;
    assert_eq!(rt;
        bodied(&mut cat, GenericDefKind::Adt, None, &rows, BASE),
        Err(4)
    );
    assert_eq!(rt; cat.len(), 4);
    Ok(())
}

// A body refers to every place of the whole list, the parent's too: `S T` of the trait, then `L`, `T`.
#[test]
fn bodies_in_a_trait(rt: HostRuntime) -> Result<(), Fail> {
    let rows = rows_of(rt.alloc(), b"LT")?;
    let mut cat = stocked(rt.alloc())?;
    let places = [
        Mark::Ref(0),
        Mark::Ref(1),
        Mark::Ref(2),
        Mark::Ref(3),
        Mark::Ref(4),
    ];
    let alias = GenericDefKind::TypeAlias;
    assert_eq!(rt;
        bodied(&mut cat, alias, Some(1), &rows, &places[0..1]),
        Ok(4)
    );
    assert_eq!(rt;
        bodied(&mut cat, alias, Some(1), &rows, &places[2..3]),
        Err(4)
    );
    assert_eq!(rt;
        bodied(&mut cat, alias, Some(1), &rows, &places[3..4]),
        Ok(5)
    );
    assert_eq!(rt;
        bodied(&mut cat, alias, Some(1), &rows, &places[4..5]),
        Err(4)
    );
    Ok(())
}

// Defaults refer to places before their own, the parent's among them.
#[test]
fn defaults(rt: HostRuntime) -> Result<(), Fail> {
    let marks = [Mark::Ref(0), Mark::Ref(2)];
    let mut cat = stocked(rt.alloc())?;
    let function = GenericDefKind::Function;
    let mut rows = [row_or(RowKind::Type, &marks[0..1]); 2];
    rows[1] = row_or(RowKind::Type, &marks[1..2]);
    assert_eq!(rt; tried(&mut cat, function, Some(1), &rows), Ok(4));
    assert_eq!(rt; tried(&mut cat, function, None, &rows[0..1]), Err(4));
    assert_eq!(rt; tried(&mut cat, function, Some(1), &rows[1..2]), Err(4));
    Ok(())
}
