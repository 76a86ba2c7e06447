// Declarations that are refused, with the lowest-numbered code.
use crate::documents::others;
use std::test::Fail;
use svc_text::Mode;

#[test]
fn names_and_ranks_are_tested(rt: HostRuntime) -> Result<(), Fail> {
    let front = "input x : int = 1\nderived a : int rank 1 = x\n";
    let rows = [
        ("input x : int = 4", "3 E05"),
        ("derived x : int rank 0 = q", "3 E05"),
        ("derived d : int rank 0 = x", "3 E07"),
        ("derived d : int rank 0 = q", "3 E07"),
        ("derived d : int rank 1 = x", "3,3,0;"),
        ("derived d : int rank 1000 = x", "3,3,0;"),
        ("derived d : int rank 1001 = x", "3 E07"),
        ("derived d : int rank 18446744073709551616 = x", "3 E07"),
        ("derived d : int rank 1 = q", "3 E08"),
        ("derived d : int rank 1 = d", "3 E08"),
        ("derived d : int rank 1 = sum() over x, d", "3 E08"),
        ("derived d : int rank 1 = a + q", "3 E08"),
        ("derived d : int rank 1 = a", "3 E09"),
        ("derived d : int rank 2 = a", "3,3,0;"),
        ("derived d : int rank 1 = sum() over a", "3 E09"),
        ("derived d : text rank 1 = a", "3 E09"),
        ("derived d : text rank 1 = x", "3 E10"),
        ("derived d : text rank 1 = text(x)", "3,3,0;"),
        ("derived d : text rank 1 = x over x", "3 E10"),
        ("derived d : int rank 1 = x over x", "3 E15"),
        ("derived d : int rank 1 = count() over x, x", "3 E15"),
        ("input t : text = 1", "3 E10"),
        ("input t : int = \"1\"", "3 E10"),
    ];
    let wrong = others(rt.alloc(), front, rows.as_slice(), Mode::Plain)?;
    assert_eq!(rt; wrong.as_str(), "");
    Ok(())
}

#[test]
fn members_are_of_the_right_type(rt: HostRuntime) -> Result<(), Fail> {
    let front =
        "input x : int = 1\ninput t : text = \"a\"\nderived s : int rank 1 = sum() over x\nderived c : int rank 1 = count() over x\n";
    let rows = [
        ("derived d : int rank 1 = sum() over t", "5 E10"),
        ("derived d : int rank 1 = min() over x, t", "5 E10"),
        ("derived d : int rank 1 = count() over t", "5,5,0;"),
        ("add s t", "5 E10"),
        ("add c t", "4,5,0;"),
        ("define s = max() over t", "5 E10"),
        ("define s = len(t) over t", "5 E15"),
    ];
    let wrong = others(rt.alloc(), front, rows.as_slice(), Mode::Plain)?;
    assert_eq!(rt; wrong.as_str(), "");
    Ok(())
}
