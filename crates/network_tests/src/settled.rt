// What documents settle to.
use crate::telling::blocks;
use std::alloc::Global;
use std::test::Fail;

// A name, a document, and its settled text.
type Row<'a> = (&'a str, &'a str, &'a str);

const ROWS: [Row<'static>; 19] = [
    (
        "sum",
        "\
input a : int = 3
input b : int = 4
derived total : int rank 1 = a + b
settle
set a = 10
settle
",
        "\
settle 1
a 3
b 4
total 7
settle 2
a 10
b 4
total 14
",
    ),
    (
        "diamond",
        "\
input x : int = 1
derived left : int rank 1 = x + 1
derived right : int rank 1 = x * 10
derived both : int rank 2 = left + right
settle
set x = 2
settle
",
        "\
settle 1
x 1
left 2
right 10
both 12
settle 2
x 2
left 3
right 20
both 23
",
    ),
    ("empty document", "", ""),
    ("one input", "input a : int = 3", "settle 1\na 3\n"),
    (
        "no members",
        "\
derived none : int rank 1 = sum()
derived top : int rank 1 = max()
",
        "\
settle 1
none 0
top !empty
",
    ),
    (
        "ends of the numbers",
        "\
input m : int = -9223372036854775808
derived p : int rank 1 = 9223372036854775807 + 1
derived q : int rank 1 = m / -1
derived r : int rank 1 = m % -1
derived s : int rank 1 = -7 / 2
derived t : int rank 1 = -7 % 2
derived z : int rank 1 = 1 / 0
",
        "\
settle 1
m -9223372036854775808
p !overflow
q !overflow
r 0
s -3
t -1
z !zero
",
    ),
    (
        "faults",
        "\
input n : text = \"12x\"
input k : int = 5
derived bad : int rank 1 = number(n)
derived all : int rank 2 = sum() over k, bad
derived many : int rank 2 = count() over k, bad
derived one : int rank 2 = 1 / 0 + bad
derived two : int rank 2 = bad + 1 / 0
derived safe : int rank 2 = if k > 3 then k else bad
",
        "\
settle 1
n \"12x\"
k 5
bad !number
all !number
many 2
one !zero
two !number
safe 5
",
    ),
    (
        "floor",
        crate::notes::FLOOR,
        "\
settle 1
x 1
b 1
c 100
n 1
settle 2
x 2
b 2
c 200
n 200
",
    ),
    (
        "epochs",
        crate::notes::EPOCHS,
        "\
settle 1
p 5
n 0
settle 2
p 5
n 5
",
    ),
    (
        "idle take",
        crate::notes::IDLE_TAKE,
        "\
settle 1
a 3
n 3
",
    ),
    (
        "two settles",
        "\
input a : int = 3
settle
settle
",
        "\
settle 1
a 3
settle 2
a 3
",
    ),
    (
        "escapes",
        "\
input t : text = \"a\\\"b\\\\c\\td\\x01é\"
derived l : int rank 1 = len(t)
",
        "\
settle 1
t \"a\\\"b\\\\c\\td\\x01é\"
l 9
",
    ),
    (
        "sum past the end",
        "\
input a : int = 9223372036854775807
input b : int = 1
derived t : int rank 1 = a + b
",
        "\
settle 1
a 9223372036854775807
b 1
t !overflow
",
    ),
    (
        "rank two",
        "\
input a : int = 1
derived t : int rank 2 = a + a
",
        "\
settle 1
a 1
t 2
",
    ),
    (
        "doubled input",
        "\
input a : int = 1
derived t : int rank 1 = a + a
",
        "\
settle 1
a 1
t 2
",
    ),
    (
        "plan with a drop",
        "\
input a : int = 1
input b : int = 2
derived t : int rank 5 = a + b
derived u : int rank 6 = t + a over b
drop u b
",
        "\
settle 1
a 1
b 2
t 3
u 4
",
    ),
    (
        "rank five",
        "\
input a : int = 1
input b : int = 2
derived t : int rank 5 = a + b
",
        "\
settle 1
a 1
b 2
t 3
",
    ),
    (
        "new definition",
        crate::logs::NEW_DEFINITION,
        "\
settle 1
x 2
y 5
a 3
n 8
settle 2
x 2
y 5
a 3
n 6
",
    ),
    (
        "make",
        "\
input i1 : int = 149
derived d1 : int rank 1 = sum() over i1
derived d2 : int rank 2 = sum() over i1, d1
drop d2 d1
set i1 = 742
settle
",
        "\
settle 1
i1 742
d1 742
d2 742
",
    ),
];

fn settled(alloc: Global, document: &str) -> Result<String, Fail> {
    let mut text = String::new(alloc);
    for block in blocks(alloc, document)? {
        text.push_str(block.values.as_str())?;
    }
    Ok(text)
}

#[test]
fn documents_settle(rt: HostRuntime) -> Result<(), Fail> {
    for (name, document, expected) in ROWS {
        let text = settled(rt.alloc(), document)?;
        assert_eq!(rt; text.as_str(), expected, "in {name}");
    }
    Ok(())
}
