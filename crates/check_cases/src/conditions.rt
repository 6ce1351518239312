use final_cond::{CondError, CondKind, Final, holds, print_cond, read_cond, read_term};
use memory_devices::MemSink;
use relax_edges::Value;
use std::test::Fail;

#[test]
fn texts_read_and_print(rt: HostRuntime) -> Result<(), Fail> {
    let rows = [
        (
            "exists (0:EAX=0 /\\ 1:EAX=0)",
            "exists (0:EAX=0 /\\ 1:EAX=0)",
        ),
        (
            " ~exists(x = 1/\\[_y1]=2 /\\ 63:X0\t=3 )  ",
            "~exists ([x]=1 /\\ [_y1]=2 /\\ 63:X0=3)",
        ),
        ("forall\t(x=4294967295)", "forall ([x]=4294967295)"),
    ];
    for (text, printed) in rows {
        let mut sink = MemSink::new(rt.alloc(), 64)?;
        if let Ok(cond) = read_cond(text) {
            assert_eq!(rt; print_cond(&cond, &mut sink), Ok(()));
        }
        assert_eq!(rt; sink.bytes(), printed.as_bytes());
    }
    Ok(())
}

#[test]
fn first_fault_is_answered(rt: HostRuntime) {
    let rows = [
        (" \t", 2, CondKind::BadQuantifier),
        ("existsfoo (x=0)", 0, CondKind::BadQuantifier),
        ("exists x=0", 7, CondKind::BadQuantifier),
        ("exists ( [ x ]=0)", 9, CondKind::BadTerm),
        ("exists (64:EAX=0)", 8, CondKind::BadTerm),
        ("exists (x y=0)", 10, CondKind::BadTerm),
        ("exists (x= 01)", 11, CondKind::BadValue),
        ("exists (x=4294967296)", 10, CondKind::BadValue),
        ("exists (x=1 / \\ y=2)", 12, CondKind::BadEnd),
        ("exists (x=1", 11, CondKind::BadEnd),
        ("exists (x=1) y", 13, CondKind::BadEnd),
    ];
    for (text, at, kind) in rows {
        let fault = match read_cond(text) {
            Ok(_) => None,
            Err(fault) => Some(fault),
        };
        assert_eq!(rt; fault, Some(CondError { at, kind }));
    }
}

#[test]
fn condition_holds_by_first_values(rt: HostRuntime) -> Result<(), Fail> {
    let mut state = Final::new(rt.alloc());
    for text in ["0:EAX=1", "x=2", "x=3"] {
        if let Ok((term, _)) = read_term(text.as_bytes()) {
            state.add(term.left, Value::Num(term.value))?;
        }
    }
    let rows = [
        ("exists (0:EAX=1 /\\ [x]=2)", true),
        ("~exists (0:EAX=1)", true),
        ("exists (0:EAX=1 /\\ [x]=3)", false),
        ("forall (1:EAX=1)", false),
    ];
    for (text, expected) in rows {
        let holding = match read_cond(text) {
            Ok(cond) => Some(holds(&cond, &state)),
            Err(_) => None,
        };
        assert_eq!(rt; holding, Some(expected));
    }
    Ok(())
}
