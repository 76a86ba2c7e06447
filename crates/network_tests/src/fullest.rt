// The fullest leg of two services: the input has as many changes as the leg may have, and computes after each.
use crate::telling::{Block, blocks, lines_from};
use std::alloc::Global;
use std::test::Fail;

fn document(alloc: Global) -> Result<String, Fail> {
    let mut text = String::from_str(alloc, "input x : int = 0\nderived y : int rank 1 = x\n")?;
    for number in 1..1023 {
        text.push_str(format!(in alloc; "set x = {number}\n")?.as_str())?;
    }
    text.push_str("do y\ntake x from y\n")?;
    for _ in 0..1023 {
        text.push_str("do x\nturn x\n")?;
    }
    text.push_str("settle\n")?;
    Ok(text)
}

fn only_block(alloc: Global) -> Result<Block, Fail> {
    match blocks(alloc, document(alloc)?.as_str())?.pop() {
        Some(block) => Ok(block),
        None => Err("there is no leg".into()),
    }
}

// How many lines begin so, and the last of them.
fn count_and_last(alloc: Global, text: &str, front: &str) -> Result<(usize, String), Fail> {
    let lines = lines_from(alloc, text, front)?;
    let last = lines.as_str().lines().last().unwrap_or("");
    Ok((
        lines.as_str().lines().count(),
        String::from_str(alloc, last)?,
    ))
}

// How lines begin, how many of them there are, and the last of them.
type Row<'a> = (&'a str, usize, &'a str);

const ROWS: [Row<'static>; 4] = [
    (
        "# log x computed",
        1023,
        "# log x computed 1022 with x@1023 picks -",
    ),
    (
        "# log y computed",
        1023,
        "# log y computed 1022 with x@1023,y@1 picks 1023",
    ),
    (
        "# log x sent y 05",
        1023,
        "# log x sent y 05000000010100000000000003fe0100000003ff",
    ),
    ("# log y sent x", 1, "# log y sent x 0100000001"),
];

#[test]
fn the_fullest_leg(rt: HostRuntime) -> Result<(), Fail> {
    let alloc = rt.alloc();
    let block = only_block(alloc)?;
    assert_eq!(rt; block.values.as_str(), "settle 1\nx 1022\ny 1022\n");
    for (front, count, last) in ROWS {
        let found = count_and_last(alloc, block.logs.as_str(), front)?;
        assert_eq!(rt; found.0, count, "in {front}");
        assert_eq!(rt; found.1.as_str(), last, "in {front}");
    }
    Ok(())
}
