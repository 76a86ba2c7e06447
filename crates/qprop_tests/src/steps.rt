// Documents with step lines.
use crate::calls::call;
use qprop_cli::Status;
use std::alloc::Global;
use std::test::Fail;

#[test]
fn step_lines_are_made(rt: HostRuntime) -> Result<(), Fail> {
    let alloc = rt.alloc();
    let rows = [
        (
            "floor",
            "input x : int = 1\nderived b : int rank 1 = x\nderived c : int rank 1 = x * 100\nderived n : int rank 2 = sum() over b\nsettle\nset x = 2\ndrop n b\nadd n c\ndo x\nturn x\ntake b from x\nturn b\nturn b\ntake n from b\nturn n\nturn n\ndo n\ndo n\ntake c from n\ntake n from c\ntake n from c\nturn n\nturn n\nsettle\n",
            "settle 1\nx 1\nb 1\nc 100\nn 1\nsettle 2\nx 2\nb 2\nc 200\nn 200\n",
        ),
        (
            "epochs",
            "input p : int = 5\nderived n : int rank 1 = sum()\nsettle\nadd n p\ndrop n p\nadd n p\ndo n\ntake p from n\ndo n\ndo n\ntake n from p\ntake n from p\nturn n\nsettle\n",
            "settle 1\np 5\nn 0\nsettle 2\np 5\nn 5\n",
        ),
        (
            "idle take",
            "input a : int = 3\nderived n : int rank 1 = a\ntake n from a\nsettle\n",
            "settle 1\na 3\nn 3\n",
        ),
        (
            "step lines among the changes",
            "input a : int = 3\ndo a\nturn a\nset a = 4\n",
            "settle 1\na 4\n",
        ),
    ];
    for (name, document, text) in rows {
        let ended = call(alloc, "step", document.as_bytes())?;
        assert!(rt; ended.status == Status::Done, "{name}");
        assert!(rt; ended.has_network, "{name}");
        assert!(rt; ended.held.as_slice() == text.as_bytes(), "{name}");
        let refused = call(alloc, "central", document.as_bytes())?;
        assert!(rt; refused.held.starts_with(b"refused "), "{name}");
    }
    Ok(())
}

// The fullest leg of two services.
fn fullest_leg(alloc: Global) -> Result<Vec<u8>, Fail> {
    let mut document = Vec::from_slice(alloc, b"input x : int = 0\nderived y : int rank 1 = x\n")?;
    for value in 1..=1022u32 {
        let line = format!(in alloc; "set x = {value}\n")?;
        document.extend_from_slice(line.as_bytes())?;
    }
    document.extend_from_slice(b"do y\ntake x from y\n")?;
    for _ in 0..1023 {
        document.extend_from_slice(b"do x\nturn x\n")?;
    }
    document.extend_from_slice(b"settle\n")?;
    Ok(document)
}

#[test]
fn the_fullest_leg_settles(rt: HostRuntime) -> Result<(), Fail> {
    let alloc = rt.alloc();
    let document = fullest_leg(alloc)?;
    let ended = call(alloc, "step", document.as_slice())?;
    assert!(rt; ended.status == Status::Done);
    assert_eq!(rt;
        ended.held.as_slice(),
        b"settle 1\nx 1022\ny 1022\n".as_slice()
    );
    Ok(())
}
