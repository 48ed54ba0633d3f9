use crate::known::{Meant, Template, resolve, template_of};
use path::segments::TypeNs;
use spans::Span;
use std::alloc::{AllocError, Global};
use std::test::Fail;

// Two templates of one name, and another.
fn templates(heap: Global) -> Result<Vec<Template>, AllocError> {
    let mut all = Vec::new(heap);
    for (number, name) in (5..).zip(["Feed", "Ring", "Feed"]) {
        let name = Vec::from_slice(heap, name.as_bytes())?;
        all.push(Template { name, number })?;
    }
    Ok(all)
}

#[test]
fn first_of_a_name(rt: HostRuntime) -> Result<(), Fail> {
    let all = templates(rt.alloc())?;
    assert_eq!(rt; template_of(all.as_slice(), b"Feed"), Some(5));
    assert_eq!(rt; template_of(all.as_slice(), b"Ring"), Some(6));
    assert_eq!(rt; template_of(all.as_slice(), b"Rin"), None);
    let none = Vec::new(rt.alloc());
    assert_eq!(rt; template_of(none.as_slice(), b"Feed"), None);
    Ok(())
}

// The number of the template that a path names, if it names one.
fn number_of(meant: Option<Meant>) -> Option<u32> {
    match meant {
        Some(Meant::Template(number)) => Some(number),
        Some(Meant::Builtin | Meant::OwnType) | None => None,
    }
}

#[test]
fn first_known_name(rt: HostRuntime) -> Result<(), Fail> {
    let all = templates(rt.alloc())?;
    // Each name has four letters in the line, and each path is a part of its names.
    let line = b"unitFeedSelfRingbool";
    let at = [0, 4, 8, 12, 16];
    let mut names = Vec::new(rt.alloc());
    for from in at {
        names.push(Span { from, len: 4 })?;
    }
    let table = [
        (0, 5, TypeNs::Adt, Some(5), Some(2)),
        (0, 2, TypeNs::Adt, Some(5), None),
        (2, 4, TypeNs::SelfType, None, Some(1)),
        (3, 5, TypeNs::Adt, Some(6), Some(1)),
        (4, 5, TypeNs::BuiltinType, None, None),
        (0, 1, TypeNs::Module, None, None),
        (0, 0, TypeNs::Module, None, None),
    ];
    for (from, to, kind, number, remaining) in table {
        let Some(path) = names.as_slice().get(from..to) else {
            return Err(Fail::new("no such part"));
        };
        let resolved = resolve(all.as_slice(), line, path);
        assert_eq!(rt; resolved.resolution.kind, kind);
        assert_eq!(rt; number_of(resolved.meant), number);
        assert_eq!(rt; resolved.resolution.remaining, remaining);
    }
    Ok(())
}
