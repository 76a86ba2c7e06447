// Trace lines of `run`.
use crate::blocks::are_read_again;
use crate::calls::{call, held_by, new_sink, outcome_of, source_of, writes};
use crate::shop::{SHOP, SHOP_SETTLED};
use qprop_cli::Outcome;
use std::alloc::Global;
use std::test::Fail;
use std::thread::Threads;
use svc_value::MemorySink;

const ONE: &str = "input a : int = 3\nsettle\nset a = 4\n";

// One service has one log in each leg.
const ONE_TRACED: &str = "\
# log a did 1
# log a computed 3 with a@1 picks -
settle 1
a 3
# log a did 2
# log a computed 4 with a@2 picks -
settle 2
a 4
";

const ONE_WITH_BOTH: &str = "\
# log a did 1
# log a computed 3 with a@1 picks -
# sources a a
settle 1
a 3
# log a did 2
# log a computed 4 with a@2 picks -
# sources a a
settle 2
a 4
";

const DIAMOND: &str =
    "input x : int = 1\nderived left : int rank 1 = x + 1\nderived right : int rank 1 = x * 10\nderived both : int rank 2 = left + right\nsettle\nset x = 2\nsettle\n";

const DIAMOND_SOURCES: &str = "\
# sources x x
# sources left x,left
# sources right x,right
# sources both x,left,right,both
settle 1
x 1
left 2
right 10
both 12
# sources x x
# sources left x,left
# sources right x,right
# sources both x,left,right,both
settle 2
x 2
left 3
right 20
both 23
";

#[test]
fn one_service_is_traced_whole(rt: HostRuntime) -> Result<(), Fail> {
    assert!(rt; writes(&rt, rt.alloc(), "run --trace", ONE.as_bytes(), ONE_TRACED)?);
    for words in ["run --trace --sources", "run --sources --trace"] {
        assert!(rt;
            writes(&rt, rt.alloc(), words, ONE.as_bytes(), ONE_WITH_BOTH)?,
            "{words}"
        );
    }
    Ok(())
}

#[test]
fn sources_are_those_of_step(rt: HostRuntime) -> Result<(), Fail> {
    for words in ["run --sources", "step --sources"] {
        assert!(rt;
            writes(&rt, rt.alloc(), words, DIAMOND.as_bytes(), DIAMOND_SOURCES)?,
            "{words}"
        );
    }
    Ok(())
}

// The lines of a text that are no trace lines.
fn untraced(alloc: Global, text: &str) -> Result<String, Fail> {
    let mut out = String::new(alloc);
    for line in text.lines() {
        if !line.starts_with("# ") {
            out.push_str(line)?;
            out.push_str("\n")?;
        }
    }
    Ok(out)
}

// How many lines of a text begin so and have this behind it.
fn count_of(text: &str, start: &str, part: &str) -> usize {
    text.lines()
        .filter(|line| line.starts_with(start) && line.contains(part))
        .count()
}

#[test]
fn the_shop_is_settled_between_its_traces(rt: HostRuntime) -> Result<(), Fail> {
    let ran = call(&rt, rt.alloc(), "run --trace", SHOP.as_bytes())?;
    assert!(rt; ran.exit == 0 && ran.has_network);
    let text = untraced(rt.alloc(), ran.text())?;
    assert!(rt; text.as_str() == SHOP_SETTLED);
    // The changes of each service are made once.
    let stepped = call(&rt, rt.alloc(), "step --trace", SHOP.as_bytes())?;
    let ran_changes = count_of(ran.text(), "# log ", " did ");
    assert!(rt; ran_changes > 0);
    assert!(rt; ran_changes == count_of(stepped.text(), "# log ", " did "));
    Ok(())
}

// Whether the first blocks of a text, so many, are read and printed again, each as the logs of the network's services.
fn reads_blocks(alloc: Global, outcome: &Outcome, text: &str, count: usize) -> Result<bool, Fail> {
    match &outcome.network {
        Some(network) => are_read_again(alloc, network.book(), text, count),
        None => Ok(false),
    }
}

fn reads_traces_of<R: Threads + Sync>(
    rt: &R,
    alloc: Global,
    document: &[u8],
    count: usize,
    sink: &mut MemorySink,
) -> Result<bool, Fail> {
    let mut source = source_of(alloc, document)?;
    let outcome = outcome_of(rt, alloc, "run --trace", &mut source, sink)?;
    reads_blocks(alloc, &outcome, held_by(sink), count)
}

// Whether `run --trace` writes so many blocks of the document that are read and printed again.
fn reads_traces<R: Threads + Sync>(
    rt: &R,
    alloc: Global,
    document: &[u8],
    count: usize,
) -> Result<bool, Fail> {
    let mut sink = new_sink(alloc)?;
    reads_traces_of(rt, alloc, document, count, &mut sink)
}

#[test]
fn traces_are_read_again(rt: HostRuntime) -> Result<(), Fail> {
    for (document, count) in [(ONE, 2), (DIAMOND, 2), (SHOP, 5)] {
        assert!(rt;
            reads_traces(&rt, rt.alloc(), document.as_bytes(), count)?,
            "{document}"
        );
    }
    Ok(())
}
