// What the logs of networks say.
use crate::notes::{EPOCHS, FLOOR};
use crate::telling::{Block, blocks, lines_from};
use std::alloc::Global;
use std::test::Fail;

/// A service gets a new expression over other services.
pub(crate) const NEW_DEFINITION: &str = "\
input x : int = 2
input y : int = 5
derived a : int rank 1 = x + 1
derived n : int rank 2 = sum() over a, y
settle
define n = count() + y over x
settle
";

const SUM: &str = "\
input a : int = 3
input b : int = 4
derived total : int rank 1 = a + b
settle
";

pub(crate) const DIAMOND: &str = "\
input x : int = 1
derived left : int rank 1 = x + 1
derived right : int rank 1 = x * 10
derived both : int rank 2 = left + right
settle
set x = 2
settle
";

const NO_MEMBERS: &str = "\
derived none : int rank 1 = sum()
derived top : int rank 1 = max()
";

// A name, a document, how lines of the last leg's logs begin, and these lines.
type Row<'a> = (&'a str, &'a str, &'a str, &'a str);

const ROWS: [Row<'static>; 7] = [
    (
        "sum",
        SUM,
        "",
        "\
# log a did 1
# log a computed 3 with a@1 picks -
# log a took total 0100000001
# log a sent total 0300000001010000
# log a sent total 0500000001010000000000000003010000000001
# log b did 1
# log b computed 4 with b@1 picks -
# log b took total 0100000001
# log b sent total 0300000001010001
# log b sent total 0500000001010000000000000004010000000001
# log total did 1
# log total sent a 0100000001
# log total sent b 0100000001
# log total took a 0300000001010000
# log total took a 0500000001010000000000000003010000000001
# log total took b 0300000001010001
# log total took b 0500000001010000000000000004010000000001
# log total computed 7 with a@1,b@1,total@1 picks 1,1
",
    ),
    (
        "diamond",
        DIAMOND,
        "",
        "\
# log x did 2
# log x computed 2 with x@2 picks -
# log x sent left 0500000001010000000000000002010000000002
# log x sent right 0500000001010000000000000002010000000002
# log left took x 0500000001010000000000000002010000000002
# log left computed 3 with x@2,left@1 picks 1
# log left sent both 0500000001010000000000000003010000000002
# log right took x 0500000001010000000000000002010000000002
# log right computed 20 with x@2,right@1 picks 1
# log right sent both 0500000001010000000000000014010000000002
# log both took left 0500000001010000000000000003010000000002
# log both took right 0500000001010000000000000014010000000002
# log both computed 23 with x@2,left@1,right@1,both@1 picks 1,1
",
    ),
    (
        "no members",
        NO_MEMBERS,
        "",
        "\
# log none did 1
# log none computed 0 with none@1 picks -
# log top did 1
# log top computed !empty with top@1 picks -
",
    ),
    (
        "floor",
        FLOOR,
        "# log n computed",
        "\
# log n computed 2 with x@2,b@1,n@1 picks 1
# log n computed 200 with x@2,c@1,n@3 picks 2
",
    ),
    (
        "epochs",
        EPOCHS,
        "# log n sent p",
        "\
# log n sent p 0100000002
# log n sent p 0200000002
# log n sent p 0100000004
",
    ),
    (
        "epochs",
        EPOCHS,
        "# log n computed",
        "# log n computed 5 with p@1,n@4 picks 1\n",
    ),
    (
        "new definition",
        NEW_DEFINITION,
        "# log n",
        "\
# log n did 2
# log n sent a 0200000001
# log n sent x 0100000002
# log n took x 0300000002010000
# log n took x 0500000002010000000000000002010000000001
# log n computed 6 with x@1,y@1,n@2 picks 0,1
",
    ),
];

// The lines of the last leg's logs that begin so.
fn last_lines(alloc: Global, document: &str, front: &str) -> Result<String, Fail> {
    match blocks(alloc, document)?.pop() {
        Some(Block { logs, .. }) => lines_from(alloc, logs.as_str(), front),
        None => Err("there is no leg".into()),
    }
}

#[test]
fn services_log_their_work(rt: HostRuntime) -> Result<(), Fail> {
    for (name, document, front, expected) in ROWS {
        let lines = last_lines(rt.alloc(), document, front)?;
        assert_eq!(rt; lines.as_str(), expected, "in {name}");
    }
    Ok(())
}
