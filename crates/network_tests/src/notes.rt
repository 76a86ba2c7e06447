// What the events of step lines answer.
use crate::telling::{Block, blocks};
use std::alloc::Global;
use std::test::Fail;

/// A service does not emit what is below what it emitted, also where it reads another service now.
pub(crate) const FLOOR: &str = "\
input x : int = 1
derived b : int rank 1 = x
derived c : int rank 1 = x * 100
derived n : int rank 2 = sum() over b
settle
set x = 2
drop n b
add n c
do x
turn x
take b from x
turn b
turn b
take n from b
turn n
turn n
do n
do n
take c from n
take n from c
take n from c
turn n
turn n
settle
";

/// A value of an edge that went comes when the edge is there again.
pub(crate) const EPOCHS: &str = "\
input p : int = 5
derived n : int rank 1 = sum()
settle
add n p
drop n p
add n p
do n
take p from n
do n
do n
take n from p
take n from p
turn n
settle
";

/// A frame is taken of a link that is empty.
pub(crate) const IDLE_TAKE: &str = "\
input a : int = 3
derived n : int rank 1 = a
take n from a
settle
";

// A name, a document, and the notes of its last leg.
type Row<'a> = (&'a str, &'a str, &'a str);

const ROWS: [Row<'static>; 5] = [
    (
        "floor",
        FLOOR,
        "\
# step 9 did
# step 10 computed
# step 11 took
# step 12 advanced
# step 13 computed
# step 14 took
# step 15 advanced
# step 16 computed
# step 17 did
# step 18 did
# step 19 took
# step 20 took
# step 21 took
# step 22 advanced
# step 23 lags c x
",
    ),
    (
        "epochs",
        EPOCHS,
        "\
# step 7 did
# step 8 took
# step 9 did
# step 10 did
# step 11 took
# step 12 took
# step 13 empty p
",
    ),
    ("idle take", IDLE_TAKE, "# step 3 idle\n"),
    (
        "no change left",
        "\
input a : int = 3
do a
do a
turn a
turn a
settle
",
        "\
# step 2 did
# step 3 idle
# step 4 computed
# step 5 still
",
    ),
    (
        "unborn",
        "\
input a : int = 3
turn a
take a from a
settle
",
        "\
# step 2 still
# step 3 idle
",
    ),
];

fn last_notes(alloc: Global, document: &str) -> Result<String, Fail> {
    match blocks(alloc, document)?.pop() {
        Some(Block { notes, .. }) => Ok(notes),
        None => Err("there is no leg".into()),
    }
}

#[test]
fn step_lines_have_notes(rt: HostRuntime) -> Result<(), Fail> {
    for (name, document, expected) in ROWS {
        let notes = last_notes(rt.alloc(), document)?;
        assert_eq!(rt; notes.as_str(), expected, "in {name}");
    }
    Ok(())
}
