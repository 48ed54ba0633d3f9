use crate::blanks::trim;
use crate::faults::{Fault, ReadError, Reason};
use crate::forms::form_of;
use crate::lists::arguments;
use path::args::Form;
use spans::Span;
use std::test::Fail;

#[test]
fn lists(rt: HostRuntime) -> Result<(), Fail> {
    let table = [
        ("", 0),
        ("  ", 0),
        ("Ring", 1),
        ("'main, Ring, 7", 3),
        ("'main, Ring, 7,", 3),
        ("Ring<Gold, Silver>, (A, B), [u8; 4], { f(1, 2) }", 4),
        ("'é', A, '\\u{e9}', B, '\\n', '\\\\', ' ', '<'", 8),
        ("fn(A) -> B, ',', \"a, \\\", b\", '\\'', 'c", 5),
    ];
    for (text, n) in table {
        assert_eq!(rt;
            arguments(rt.alloc(), text.as_bytes())?.len(),
            n,
            "{}",
            text
        );
    }
    Ok(())
}

#[test]
fn unreadable(rt: HostRuntime) -> Result<(), Fail> {
    let table = [
        (",", 0, Reason::Empty),
        ("A,, B", 2, Reason::Empty),
        ("A, (B", 5, Reason::Unclosed),
        ("A, \"B", 5, Reason::Unclosed),
        ("A>, B", 1, Reason::Unopened),
        ("'ab', A, 'c", 3, Reason::Unopened),
        ("', A, 'b", 2, Reason::Unopened),
        ("A', B, 'c", 1, Reason::Unopened),
        ("'\\n, A, 'c'", 3, Reason::Unopened),
        ("A, 'é", 6, Reason::Unclosed),
    ];
    for (text, at, reason) in table {
        match arguments(rt.alloc(), text.as_bytes()) {
            Ok(_) => return Err(Fail::new("read")),
            Err(ReadError::Unreadable(fault)) => assert_eq!(rt;
                fault,
                Fault { at, reason },
                "{}",
                text
            ),
            Err(ReadError::NoMemory) => return Err(Fail::new("no memory")),
        }
    }
    Ok(())
}

#[test]
fn forms(rt: HostRuntime) {
    let table = [
        ("'main", Form::Lifetime),
        ("'a'", Form::Constant),
        ("_", Form::Placeholder),
        ("7", Form::Constant),
        ("-1", Form::Constant),
        ("true", Form::Constant),
        ("\"a\"", Form::Constant),
        ("{ N + 1 }", Form::Constant),
        ("Ring", Form::Path),
        ("limits::TOP", Form::Path),
        ("a :: Ring <Gold, (A, B)> ::b::<C>", Form::Path),
        ("_a", Form::Path),
        ("&Ring", Form::Type),
        ("(A, B)", Form::Type),
        ("dyn Ring", Form::Type),
        ("a:b", Form::Type),
        ("a::", Form::Type),
    ];
    for (text, form) in table {
        assert_eq!(rt; form_of(text.as_bytes()), form, "{}", text);
    }
    assert_eq!(rt; trim(b" \tRing "), Span { from: 2, len: 4 });
    assert_eq!(rt; trim(b"  "), Span { from: 2, len: 0 });
}
