// The tokens of some lines.
use std::alloc::{AllocError, Global};
use std::test::Fail;
use svc_token::{Token, cut, is_name};

// The tokens of a line as they print, or `None` where it has none.
fn shown(alloc: Global, line: &str) -> Result<Option<String>, AllocError> {
    let mut tokens: Vec<Token<'_>> = Vec::new(alloc);
    match cut(line.as_bytes(), &mut tokens) {
        Ok(()) => Ok(Some(format!(in alloc; "{tokens:?}")?)),
        Err(_) => Ok(None),
    }
}

#[test]
fn lines_are_cut(rt: HostRuntime) -> Result<(), Fail> {
    let alloc = rt.alloc();
    let rows = [
        (
            "a<=-1",
            r#"[Name(NameRef { text: "a" }), LessOrEqual, Dash, Number(1)]"#,
        ),
        ("+++ - 007", "[Join, Plus, Minus, Number(7)]"),
        (
            "rank\t18446744073709551616\r",
            "[Keyword(Rank), Number(18446744073709551615)]",
        ),
        ("_", "none"),
        ("1a", "none"),
        (
            r#""\"" "#,
            r#"[Quoted(BytesRef { bytes: [34, 92, 34, 34] })]"#,
        ),
        (r#""\""#, "none"),
        ("", "[]"),
    ];
    for (line, expected) in rows {
        let tokens = shown(alloc, line)?;
        assert_eq!(rt;
            tokens.as_ref().map_or("none", |text| text.as_str()),
            expected
        );
    }
    Ok(())
}

#[test]
fn names_are_told(rt: HostRuntime) {
    assert!(rt; is_name(b"a23456789_123456789_123456789_12".as_slice()));
    assert!(rt; !is_name(b"a23456789_123456789_123456789_123".as_slice()));
    assert!(rt; !is_name(b"settle".as_slice()));
    assert!(rt; !is_name(b"_a".as_slice()));
}
