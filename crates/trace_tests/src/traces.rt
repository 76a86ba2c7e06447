// What is written with the flags of `step`.
use crate::calls::{call, writes};
use crate::texts::{
    DIAMOND, DIAMOND_LOGS_1, DIAMOND_LOGS_2, EPOCHS, FLOOR, IDLE_TAKE, NEW_DEFINITION, SUM,
    SUM_LOGS_1, SUM_LOGS_2,
};
use std::alloc::Global;
use std::test::Fail;

const TRACE: &str = "step --trace";

const SOURCES: &str = "step --sources";

const BOTH: &str = "step --trace --sources";

const BOTH_TURNED: &str = "step --sources --trace";

const SUM_SOURCES: &str = "\
# sources a a
# sources b b
# sources total a,b,total
settle 1
a 3
b 4
total 7
# sources a a
# sources b b
# sources total a,b,total
settle 2
a 10
b 4
total 14
";

const DIAMOND_SOURCES: &str = "\
# sources x x
# sources left x,left
# sources right x,right
# sources both x,left,right,both
settle 1
x 1
left 2
right 10
both 12
# sources x x
# sources left x,left
# sources right x,right
# sources both x,left,right,both
settle 2
x 2
left 3
right 20
both 23
";

const IDLE_TAKE_BOTH: &str = "\
# step 3 idle
# log a did 1
# log a computed 3 with a@1 picks -
# log a took n 0100000001
# log a sent n 0300000001010000
# log a sent n 0500000001010000000000000003010000000001
# log n did 1
# log n sent a 0100000001
# log n took a 0300000001010000
# log n took a 0500000001010000000000000003010000000001
# log n computed 3 with a@1,n@1 picks 1
# sources a a
# sources n a,n
settle 1
a 3
n 3
";

// Whether a document of two legs is traced as these logs and values, one after another.
fn traces_legs(
    alloc: Global,
    document: &str,
    logs_1: &str,
    values_1: &str,
    logs_2: &str,
    values_2: &str,
) -> Result<bool, Fail> {
    let text = format!(in alloc; "{logs_1}{values_1}{logs_2}{values_2}")?;
    writes(alloc, TRACE, document, 0, text.as_str())
}

fn traces_sum(alloc: Global) -> Result<bool, Fail> {
    let (values_1, values_2) = (
        "settle 1\na 3\nb 4\ntotal 7\n",
        "settle 2\na 10\nb 4\ntotal 14\n",
    );
    traces_legs(alloc, SUM, SUM_LOGS_1, values_1, SUM_LOGS_2, values_2)
}

fn traces_diamond(alloc: Global) -> Result<bool, Fail> {
    let (values_1, values_2) = (
        "settle 1\nx 1\nleft 2\nright 10\nboth 12\n",
        "settle 2\nx 2\nleft 3\nright 20\nboth 23\n",
    );
    traces_legs(
        alloc,
        DIAMOND,
        DIAMOND_LOGS_1,
        values_1,
        DIAMOND_LOGS_2,
        values_2,
    )
}

#[test]
fn legs_are_traced_whole(rt: HostRuntime) -> Result<(), Fail> {
    assert!(rt; traces_sum(rt.alloc())?, "sum");
    assert!(rt; traces_diamond(rt.alloc())?, "diamond");
    Ok(())
}

#[test]
fn sources_stand_behind_the_logs(rt: HostRuntime) -> Result<(), Fail> {
    let rows = [
        (SOURCES, SUM, SUM_SOURCES),
        (SOURCES, DIAMOND, DIAMOND_SOURCES),
        (BOTH, IDLE_TAKE, IDLE_TAKE_BOTH),
        (BOTH_TURNED, IDLE_TAKE, IDLE_TAKE_BOTH),
        (BOTH, "settle\nsettle\n", "settle 1\nsettle 2\n"),
        (BOTH, "", ""),
    ];
    for (words, document, text) in rows {
        assert!(rt; writes(rt.alloc(), words, document, 0, text)?, "{document}");
    }
    Ok(())
}

// Whether just these lines of the text begin so.
fn has_lines(text: &str, front: &str, lines: &str) -> bool {
    let mut wanted = lines.lines();
    for line in text.lines() {
        if line.starts_with(front) && wanted.next() != Some(line) {
            return false;
        }
    }
    wanted.next().is_none()
}

fn traces_lines(alloc: Global, document: &str, front: &str, lines: &str) -> Result<bool, Fail> {
    let ended = call(alloc, TRACE, document)?;
    Ok(ended.exit == 0 && has_lines(ended.text(), front, lines))
}

const FLOOR_NOTES: &str = "\
# step 9 did
# step 10 computed
# step 11 took
# step 12 advanced
# step 13 computed
# step 14 took
# step 15 advanced
# step 16 computed
# step 17 did
# step 18 did
# step 19 took
# step 20 took
# step 21 took
# step 22 advanced
# step 23 lags c x
";

const FLOOR_COMPUTED: &str = "\
# log n computed 1 with x@1,b@1,n@1 picks 1
# log n computed 2 with x@2,b@1,n@1 picks 1
# log n computed 200 with x@2,c@1,n@3 picks 2
";

const EPOCHS_NOTES: &str = "\
# step 7 did
# step 8 took
# step 9 did
# step 10 did
# step 11 took
# step 12 took
# step 13 empty p
";

const EPOCHS_SENT: &str = "\
# log n sent p 0100000002
# log n sent p 0200000002
# log n sent p 0100000004
";

const EPOCHS_COMPUTED: &str = "\
# log n computed 0 with n@1 picks -
# log n computed 5 with p@1,n@4 picks 1
";

const NEW_DEFINITION_LOG: &str = "\
# log n did 1
# log n sent a 0100000001
# log n sent y 0100000001
# log n took y 0300000001010001
# log n took y 0500000001010000000000000005010000000001
# log n took a 03000000010200000002
# log n took a 05000000010100000000000000030200000000010100000001
# log n computed 8 with x@1,y@1,a@1,n@1 picks 1,1
# log n did 2
# log n sent a 0200000001
# log n sent x 0100000002
# log n took x 0300000002010000
# log n took x 0500000002010000000000000002010000000001
# log n computed 6 with x@1,y@1,n@2 picks 0,1
";

const NO_CHANGE_LEFT: &str = "\
input a : int = 3
do a
do a
turn a
turn a
take a from a
settle
";

const NO_CHANGE_LEFT_NOTES: &str = "\
# step 2 did
# step 3 idle
# step 4 computed
# step 5 still
# step 6 idle
";

const NO_MEMBERS: &str = "\
derived none : int rank 1 = sum()
derived top : int rank 1 = max()
";

const NO_MEMBERS_TRACED: &str = "\
# log none did 1
# log none computed 0 with none@1 picks -
# log top did 1
# log top computed !empty with top@1 picks -
";

#[test]
fn step_lines_have_notes_and_computations(rt: HostRuntime) -> Result<(), Fail> {
    let rows = [
        ("floor", FLOOR, "# step ", FLOOR_NOTES),
        ("floor", FLOOR, "# log n computed ", FLOOR_COMPUTED),
        ("epochs", EPOCHS, "# step ", EPOCHS_NOTES),
        ("epochs", EPOCHS, "# log n sent p ", EPOCHS_SENT),
        ("epochs", EPOCHS, "# log n computed ", EPOCHS_COMPUTED),
        ("new definition", NEW_DEFINITION, "# step ", ""),
        (
            "new definition",
            NEW_DEFINITION,
            "# log n ",
            NEW_DEFINITION_LOG,
        ),
        (
            "no change left",
            NO_CHANGE_LEFT,
            "# step ",
            NO_CHANGE_LEFT_NOTES,
        ),
        ("no members", NO_MEMBERS, "# ", NO_MEMBERS_TRACED),
    ];
    for (name, document, front, lines) in rows {
        assert!(rt;
            traces_lines(rt.alloc(), document, front, lines)?,
            "{front}in {name}"
        );
    }
    Ok(())
}

// Whether the text is the other one without the lines that begin with `# `.
fn is_untraced(text: &str, traced: &str) -> bool {
    let mut wanted = text.lines();
    for line in traced.lines() {
        if !line.starts_with("# ") && wanted.next() != Some(line) {
            return false;
        }
    }
    wanted.next().is_none()
}

// Whether a call with these words writes this text and trace lines.
fn adds_trace_lines(alloc: Global, words: &str, document: &str, text: &str) -> Result<bool, Fail> {
    let ended = call(alloc, words, document)?;
    Ok(ended.exit == 0 && ended.text() != text && is_untraced(text, ended.text()))
}

fn all_add_trace_lines(alloc: Global, document: &str, text: &str) -> Result<bool, Fail> {
    for words in [TRACE, SOURCES, BOTH, BOTH_TURNED] {
        if !adds_trace_lines(alloc, words, document, text)? {
            return Ok(false);
        }
    }
    Ok(true)
}

// Whether `step` writes this text, and with flags the same text and trace lines.
fn settles_and_traces(alloc: Global, document: &str, text: &str) -> Result<bool, Fail> {
    Ok(writes(alloc, "step", document, 0, text)? && all_add_trace_lines(alloc, document, text)?)
}

#[test]
fn flags_add_trace_lines_alone(rt: HostRuntime) -> Result<(), Fail> {
    let rows = [
        (
            SUM,
            "settle 1\na 3\nb 4\ntotal 7\nsettle 2\na 10\nb 4\ntotal 14\n",
        ),
        (
            DIAMOND,
            "settle 1\nx 1\nleft 2\nright 10\nboth 12\nsettle 2\nx 2\nleft 3\nright 20\nboth 23\n",
        ),
        (
            FLOOR,
            "settle 1\nx 1\nb 1\nc 100\nn 1\nsettle 2\nx 2\nb 2\nc 200\nn 200\n",
        ),
        (EPOCHS, "settle 1\np 5\nn 0\nsettle 2\np 5\nn 5\n"),
        (
            NEW_DEFINITION,
            "settle 1\nx 2\ny 5\na 3\nn 8\nsettle 2\nx 2\ny 5\na 3\nn 6\n",
        ),
        (IDLE_TAKE, "settle 1\na 3\nn 3\n"),
        ("input t : text = \"# a\"\n", "settle 1\nt \"# a\"\n"),
    ];
    for (document, text) in rows {
        assert!(rt;
            settles_and_traces(rt.alloc(), document, text)?,
            "{document}"
        );
    }
    Ok(())
}
