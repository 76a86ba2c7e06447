// Words that are no command.
use crate::calls::writes;
use std::test::Fail;

const USAGE: &str =
    "usage: qprop run|step [--trace] [--sources] [--keep] [--resume [--at K]] | history | check | central | frames | make S C N | load S C N | judge\n";

// Words on each line; there are none on the first one.
const WORDS: &str = "\

run --fast
run --trace
run --trace --trace
step --trace --trace
step --sources --trace --sources
step --
step --trace --
step --trace=1
step --tra
step trace
step --help
step --keep
step --resume
--trace step
check --
check --trace
central --sources
frames --trace
make 3 5 1 --trace
make 1 5 1
make 3 05 1
load
load 3 5
load 3 5 1 1
load 1 5 1
load 3 05 1
load 3 5 65537
load --sources 3 5 1
";

#[test]
fn other_words_write_the_usage_line(rt: HostRuntime) -> Result<(), Fail> {
    for words in WORDS.lines() {
        assert!(rt; writes(rt.alloc(), words, "", 1, USAGE)?, "{words}");
    }
    Ok(())
}
