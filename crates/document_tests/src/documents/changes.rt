// Changes that are refused, with the lowest-numbered code.
use crate::documents::others;
use std::test::Fail;
use svc_text::Mode;

#[test]
fn changes_are_refused(rt: HostRuntime) -> Result<(), Fail> {
    let front = "input x : int = 1\nderived a : int rank 1 = x\nderived b : int rank 1 = sum()\n";
    let rows = [
        ("add b a", "4 E09"),
        ("add b b", "4 E09"),
        ("add b q", "4 E08"),
        ("add q x", "4 E08"),
        ("add b x", "3,4,0;"),
        ("add x a", "4 E14"),
        ("add x x", "4 E14"),
        ("drop x x", "4 E14"),
        ("set a = 1", "4 E13"),
        ("set a = \"1\"", "4 E13"),
        ("set x = \"1\"", "4 E10"),
        ("set x = 2", "3,4,0;"),
        ("set q = 1", "4 E08"),
        ("add b x\nadd b x", "5 E15"),
        ("add b x\ndrop b x\ndrop b x", "6 E16"),
    ];
    let wrong = others(rt.alloc(), front, rows.as_slice(), Mode::Plain)?;
    assert_eq!(rt; wrong.as_str(), "");
    Ok(())
}

#[test]
fn members_are_refused(rt: HostRuntime) -> Result<(), Fail> {
    let front = "input x : int = 1\nderived a : int rank 1 = x + 1\n";
    let rows = [
        ("drop a x", "3 E16"),
        ("drop a a", "3 E16"),
        ("drop a q", "3 E08"),
        ("add a x", "3 E15"),
    ];
    let wrong = others(rt.alloc(), front, rows.as_slice(), Mode::Plain)?;
    assert_eq!(rt; wrong.as_str(), "");
    Ok(())
}

#[test]
fn definitions_are_refused(rt: HostRuntime) -> Result<(), Fail> {
    let front =
        "input x : int = 2\ninput y : int = 5\nderived a : int rank 1 = x + 1\nderived n : int rank 2 = sum() over a, y\n";
    let rows = [
        ("define x = y", "5 E14"),
        ("define x = count() over x, x", "5 E14"),
        ("define a = n", "5 E09"),
        ("define a = a", "5 E09"),
        ("define a = x ++ \"1\"", "5 E10"),
        ("define n = text(x)", "5 E10"),
        ("define n = sum() over a, a", "5 E15"),
        ("define n = a over a", "5 E15"),
        ("define q = x", "5 E08"),
        ("define n = q", "5 E08"),
        ("define n = x over q", "5 E08"),
        ("define n = x over y", "4,5,0;"),
        ("define n = x\nadd n y", "4,6,0;"),
    ];
    let wrong = others(rt.alloc(), front, rows.as_slice(), Mode::Plain)?;
    assert_eq!(rt; wrong.as_str(), "");
    Ok(())
}
