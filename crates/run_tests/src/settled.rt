// Documents, and their settled texts by `run` and by `step`.
use crate::calls::{ends_with, settles_to};
use crate::shop::{SHOP, SHOP_SETTLED};
use std::test::Fail;

#[test]
fn documents_settle_by_threads(rt: HostRuntime) -> Result<(), Fail> {
    let rows = [
        (
            "sum",
            "input a : int = 3\ninput b : int = 4\nderived total : int rank 1 = a + b\nsettle\nset a = 10\nsettle\n",
            "settle 1\na 3\nb 4\ntotal 7\nsettle 2\na 10\nb 4\ntotal 14\n",
        ),
        (
            "diamond",
            "input x : int = 1\nderived left : int rank 1 = x + 1\nderived right : int rank 1 = x * 10\nderived both : int rank 2 = left + right\nsettle\nset x = 2\nsettle\n",
            "settle 1\nx 1\nleft 2\nright 10\nboth 12\nsettle 2\nx 2\nleft 3\nright 20\nboth 23\n",
        ),
        ("shop", SHOP, SHOP_SETTLED),
        ("empty document", "", ""),
        (
            "two settles",
            "input a : int = 3\nsettle\nsettle\n",
            "settle 1\na 3\nsettle 2\na 3\n",
        ),
        (
            "a service of a later leg",
            "input a : int = 1\nsettle\nset a = 2\nderived t : int rank 01 = a + a\nset a = 5\n",
            "settle 1\na 1\nsettle 2\na 5\nt 10\n",
        ),
        (
            "no members",
            "derived none : int rank 1 = sum()\nderived top : int rank 1 = max()",
            "settle 1\nnone 0\ntop !empty\n",
        ),
        (
            "faults",
            "input n : text = \"12x\"\ninput k : int = 5\nderived bad : int rank 1 = number(n)\nderived all : int rank 2 = sum() over k, bad\nderived many : int rank 2 = count() over k, bad\nderived one : int rank 2 = 1 / 0 + bad\nderived two : int rank 2 = bad + 1 / 0\nderived safe : int rank 2 = if k > 3 then k else bad\n",
            "settle 1\nn \"12x\"\nk 5\nbad !number\nall !number\nmany 2\none !zero\ntwo !number\nsafe 5\n",
        ),
        (
            "members that come and go",
            "input p : int = 5\nderived n : int rank 1 = sum()\nsettle\nadd n p\ndrop n p\nadd n p\nsettle\n",
            "settle 1\np 5\nn 0\nsettle 2\np 5\nn 5\n",
        ),
        (
            "new definition",
            "input x : int = 2\ninput y : int = 5\nderived a : int rank 1 = x + 1\nderived n : int rank 2 = sum() over a, y\nsettle\ndefine n = count() + y over x\nsettle\n",
            "settle 1\nx 2\ny 5\na 3\nn 8\nsettle 2\nx 2\ny 5\na 3\nn 6\n",
        ),
    ];
    for (name, document, text) in rows {
        assert!(rt;
            settles_to(&rt, rt.alloc(), document.as_bytes(), text)?,
            "{name}"
        );
    }
    Ok(())
}

#[test]
fn other_documents_are_refused(rt: HostRuntime) -> Result<(), Fail> {
    let rows = [
        (
            "idle take",
            "input a : int = 3\nderived n : int rank 1 = a\ntake n from a\nsettle\n",
            "refused 3 E18\n",
        ),
        (
            "a step line of an unknown service",
            "input a : int = 3\nturn q\n",
            "refused 2 E08\n",
        ),
        (
            "a change of a derived service",
            "input a : int = 3\nderived n : int rank 1 = a\nsettle\nset n = 4\n",
            "refused 4 E13\n",
        ),
    ];
    for (name, document, text) in rows {
        for words in ["run", "run --trace --sources"] {
            assert!(rt;
                ends_with(&rt, rt.alloc(), words, document.as_bytes(), 2, text)?,
                "{name}"
            );
        }
    }
    Ok(())
}
