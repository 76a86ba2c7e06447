// Documents that are accepted.
use crate::documents::{answer, others};
use std::test::Fail;
use svc_text::Mode;

#[test]
fn documents_are_read(rt: HostRuntime) -> Result<(), Fail> {
    let alloc = rt.alloc();
    let rows = [
        // The sum of two inputs, over two legs, of which the last is ended or not.
        (
            "input a : int = 3\ninput b : int = 4\nderived total : int rank 1 = a + b\nsettle\nset a = 10\nsettle\n",
            "3,3,0;0,1,0;",
        ),
        (
            "input a : int = 3\ninput b : int = 4\nderived total : int rank 1 = a + b\nsettle\nset a = 10",
            "3,3,0;0,1,0;",
        ),
        // Nothing, silence, and legs without lines.
        ("", ""),
        ("\n \t\r\n# a comment\n", ""),
        ("settle\nsettle\n", "0,0,0;0,0,0;"),
        // Blanks, marks without blanks, leading zeros, a text, and the least number.
        ("input\ta:int=-9223372036854775808\r\n", "1,1,0;"),
        (
            "input x : int = 1\nderived twice : int rank 01 = x+x",
            "2,2,0;",
        ),
        ("input x : text = \"a\"\n", "1,1,0;"),
        // A plan with a drop, and a new definition.
        (
            "input a : int = 1\ninput b : int = 2\nderived t : int rank 5 = a + b\nderived u : int rank 6 = t + a over b\ndrop u b\n",
            "4,5,0;",
        ),
        (
            "input x : int = 2\ninput y : int = 5\nderived a : int rank 1 = x + 1\nderived n : int rank 2 = sum() over a, y\nsettle\ndefine n = count() + y over x\nsettle\n",
            "4,4,0;0,1,0;",
        ),
    ];
    for (text, expected) in rows {
        let answer = answer(alloc, text.as_bytes(), Mode::Plain)?;
        assert_eq!(rt; answer.as_str(), expected, "in {text:?}");
    }
    Ok(())
}

#[test]
fn step_lines_are_read_in_their_mode(rt: HostRuntime) -> Result<(), Fail> {
    let front = "input a : int = 3\nderived n : int rank 1 = a\n";
    let rows = [
        ("do a", "2,2,1;"),
        ("turn n\nturn n", "2,2,2;"),
        // An idle take.
        ("take n from a\nsettle", "2,2,1;"),
        ("do q", "3 E08"),
        ("take n from q", "3 E08"),
        ("take q from a", "3 E08"),
    ];
    let wrong = others(rt.alloc(), front, rows.as_slice(), Mode::Step)?;
    assert_eq!(rt; wrong.as_str(), "");
    let rows = [
        ("do a", "3 E18"),
        ("turn n", "3 E18"),
        ("take n from a\nsettle", "3 E18"),
        // A name that is not declared goes first.
        ("do q", "3 E08"),
        ("take n from q", "3 E08"),
    ];
    let wrong = others(rt.alloc(), front, rows.as_slice(), Mode::Plain)?;
    assert_eq!(rt; wrong.as_str(), "");
    Ok(())
}
