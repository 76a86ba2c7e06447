// What expressions are read as, mean and are printed as.
use std::alloc::{AllocError, Global};
use std::test::Fail;
use svc_expr::{Expr, eval, names_of, needs_int_members, print_expr, read_expr, type_of};
use svc_value::{Names, Value, print_value};

// The text of these bytes.
fn text(alloc: Global, bytes: &[u8]) -> Result<String, AllocError> {
    match std::str::from_utf8(bytes) {
        Ok(text) => String::from_str(alloc, text),
        Err(_) => String::from_str(alloc, "no text"),
    }
}

// The canonical text of a tree in which the names stand for its numbers.
fn printed(alloc: Global, expr: &Expr, names: &Names) -> Result<String, AllocError> {
    if usize::from(names_of(expr)) > names.len() {
        return String::from_str(alloc, "a name is missing");
    }
    let mut out = Vec::new(alloc);
    match print_expr(expr, names, &mut out) {
        Ok(()) => text(alloc, &out),
        Err(_) => String::from_str(alloc, "memory"),
    }
}

// The canonical text, or why there is none.
fn shown(alloc: Global, expr: &str) -> Result<String, AllocError> {
    match read_expr(alloc, expr) {
        Ok(reading) => printed(alloc, &reading.expr, &reading.names),
        Err(error) => format!(in alloc; "{error:?}"),
    }
}

// The value of an expression without names over members, as it prints.
fn value(alloc: Global, expr: &str, members: &[Value]) -> Result<String, AllocError> {
    let Ok(reading) = read_expr(alloc, expr) else {
        return String::from_str(alloc, "not read");
    };
    if members.len() > 16 {
        return String::from_str(alloc, "too many members");
    }
    let mut out = Vec::new(alloc);
    match eval(alloc, &reading.expr, &[], members) {
        Ok(value) => match print_value(&value, &mut out) {
            Ok(()) => text(alloc, &out),
            Err(_) => String::from_str(alloc, "memory"),
        },
        Err(_) => String::from_str(alloc, "memory"),
    }
}

// The type of an expression without names, or the node that has none.
fn type_text(alloc: Global, expr: &str) -> Result<String, AllocError> {
    let Ok(reading) = read_expr(alloc, expr) else {
        return String::from_str(alloc, "not read");
    };
    format!(in alloc; "{:?}", type_of(&reading.expr, &[]))
}

// So many copies of a text, one behind the other.
fn repeated(alloc: Global, text: &str, count: usize) -> Result<String, AllocError> {
    let mut all = String::new(alloc);
    for _ in 0..count {
        all.push_str(text)?;
    }
    Ok(all)
}

#[test]
fn expressions_are_read(rt: HostRuntime) -> Result<(), Fail> {
    let alloc = rt.alloc();
    let rows = [
        ("a--1", "(a - -1)"),
        ("1-1", "(1 - 1)"),
        ("- 5 - -007", "(-(5) - -7)"),
        ("not not a", "(not (not (a)))"),
        ("not a < b and c or d", "(((not (a < b)) and c) or d)"),
        ("a < b < c", "Bad"),
        ("1 + if a then b else c", "Bad"),
        (
            "if a then b else if c then a else 2",
            "(if a then b else (if c then a else 2))",
        ),
        ("9223372036854775807", "9223372036854775807"),
        ("9223372036854775808", "Bad"),
        ("-9223372036854775808", "-9223372036854775808"),
        (r#""\x7F" ++ "\"é""#, r#"("\x7f" ++ "\"é")"#),
        (r#""\x80""#, "Bad"),
        ("len(text(sum() - max()))", "len(text((sum() - max())))"),
        ("sum(1)", "Bad"),
        ("1a", "Bad"),
        (
            r#"shop ++ ": " ++ text(total)"#,
            r#"((shop ++ ": ") ++ text(total))"#,
        ),
    ];
    for (expr, expected) in rows {
        let shown = shown(alloc, expr)?;
        assert_eq!(rt; shown.as_str(), expected);
    }
    Ok(())
}

#[test]
fn limits_are_kept(rt: HostRuntime) -> Result<(), Fail> {
    let alloc = rt.alloc();
    let opening = repeated(alloc, "(", 64)?;
    let closing = repeated(alloc, ")", 64)?;
    let levels = format!(in alloc; "{opening}1{closing}")?;
    assert_eq!(rt; shown(alloc, &levels)?.as_str(), "1");
    let more = format!(in alloc; "({levels})")?;
    assert_eq!(rt; shown(alloc, &more)?.as_str(), "Bad");
    let ones = repeated(alloc, "1+", 31)?;
    let deep = format!(in alloc; "{ones}1")?;
    assert!(rt; read_expr(alloc, &deep).is_ok());
    let deeper = format!(in alloc; "{deep}+1")?;
    assert_eq!(rt; shown(alloc, &deeper)?.as_str(), "TooLarge");
    let four = "((1+1)+(1+1))";
    let sixteen = format!(in alloc; "(({four}+{four})+({four}+{four}))")?;
    let all = format!(in alloc; "(({sixteen}+{sixteen})+({sixteen}+{sixteen}))")?;
    let most = format!(in alloc; "-{all}")?;
    assert!(rt; read_expr(alloc, &most).is_ok());
    let too_many = format!(in alloc; "-{most}")?;
    assert_eq!(rt; shown(alloc, &too_many)?.as_str(), "TooLarge");
    Ok(())
}

#[test]
fn expressions_are_evaluated(rt: HostRuntime) -> Result<(), Fail> {
    let alloc = rt.alloc();
    let rows = [
        ("9223372036854775807 + 1", "!overflow"),
        ("-9223372036854775808 / -1", "!overflow"),
        ("-9223372036854775808 % -1", "0"),
        ("-7 / 2", "-3"),
        ("-7 % 2", "-1"),
        ("1 / 0 + number(\"x\")", "!zero"),
        ("number(\"x\") + 1 / 0", "!number"),
        ("if 5 > 3 then 5 else 1 / 0", "5"),
        ("number(\"-05\") + number(\"7\")", "2"),
        ("number(\"+5\")", "!number"),
        ("len(\"a\\\"b\\\\c\\td\\x01é\")", "9"),
        ("\"é\" < \"z\"", "0"),
        ("text(-3) ++ \"!\"", "\"-3!\""),
        ("sum() * count()", "12"),
        ("max() - min()", "4"),
    ];
    let members = [Value::Int(5), Value::Int(1)];
    for (expr, expected) in rows {
        let value = value(alloc, expr, &members)?;
        assert_eq!(rt; value.as_str(), expected);
    }
    assert_eq!(rt; value(alloc, "max()", &[])?.as_str(), "!empty");
    Ok(())
}

#[test]
fn texts_are_joined_up_to_256_bytes(rt: HostRuntime) -> Result<(), Fail> {
    let alloc = rt.alloc();
    let letters = repeated(alloc, "a", 256)?;
    let kept = format!(in alloc; "len(\"{letters}\" ++ \"\")")?;
    assert_eq!(rt; value(alloc, &kept, &[])?.as_str(), "256");
    let long = format!(in alloc; "\"{letters}\" ++ \"b\"")?;
    assert_eq!(rt; value(alloc, &long, &[])?.as_str(), "!long");
    let refused = format!(in alloc; "\"{letters}b\"")?;
    assert_eq!(rt; shown(alloc, &refused)?.as_str(), "Bad");
    Ok(())
}

#[test]
fn first_nodes_without_type_are_named(rt: HostRuntime) -> Result<(), Fail> {
    let alloc = rt.alloc();
    let rows = [
        ("1 + 2 < 3", "Ok(Int)"),
        ("1 + \"a\"", "Err(TypeErrorAt { node: 0 })"),
        ("(1 + 2) + len(3)", "Err(TypeErrorAt { node: 4 })"),
        (
            "if 1 then \"a\" else -\"b\"",
            "Err(TypeErrorAt { node: 3 })",
        ),
    ];
    for (expr, expected) in rows {
        let found = type_text(alloc, expr)?;
        assert_eq!(rt; found.as_str(), expected);
    }
    Ok(())
}

#[test]
fn copies_are_the_same(rt: HostRuntime) -> Result<(), Fail> {
    let alloc = rt.alloc();
    let Ok(reading) = read_expr(alloc, "b + sum() * a + b") else {
        return Err(Fail::from("not read"));
    };
    assert_eq!(rt; names_of(&reading.expr), 2);
    assert!(rt; needs_int_members(&reading.expr));
    let Ok(copy) = reading.expr.copy() else {
        return Err(Fail::from("memory"));
    };
    assert_eq!(rt;
        printed(alloc, &copy, &reading.names)?.as_str(),
        "((b + (sum() * a)) + b)"
    );
    Ok(())
}
