// Sources and sinks that fail.
use crate::calls::{Ended, SUM, SUM_SETTLED, call_with};
use qprop_cli::Status;
use std::alloc::Global;
use std::test::Fail;

// How the calls of the document end where the sink takes one byte a call and its call of this number fails.
fn sink_failing_at(alloc: Global, call: u64) -> Result<Ended, Fail> {
    call_with(alloc, "step", SUM.as_bytes(), 4096, 0, 1, call)
}

#[test]
fn a_failing_sink_keeps_a_beginning(rt: HostRuntime) -> Result<(), Fail> {
    let alloc = rt.alloc();
    for call in 1..=52u64 {
        let ended = sink_failing_at(alloc, call)?;
        assert!(rt; ended.status == Status::WriteFault, "{call}");
        assert!(rt; !ended.has_network, "{call}");
        assert!(rt; ended.held.len() as u64 + 1 == call, "{call}");
        assert!(rt;
            SUM_SETTLED.as_bytes().starts_with(ended.held.as_slice()),
            "{call}"
        );
    }
    let ended = sink_failing_at(alloc, 53)?;
    assert!(rt; ended.status == Status::Done);
    assert_eq!(rt; ended.held.as_slice(), SUM_SETTLED.as_bytes());
    for word in ["step", "central"] {
        let ended = call_with(alloc, word, SUM.as_bytes(), 4096, 0, 8, 3)?;
        assert!(rt; ended.status == Status::WriteFault, "{word}");
        assert!(rt;
            ended.held.as_slice() == b"settle 1\na 3\nb 4".as_slice(),
            "{word}"
        );
    }
    Ok(())
}

#[test]
fn a_failing_source_writes_nothing(rt: HostRuntime) -> Result<(), Fail> {
    let alloc = rt.alloc();
    for call in 1..=97u64 {
        let ended = call_with(alloc, "step", SUM.as_bytes(), 1, call, 4096, 0)?;
        assert!(rt; ended.status == Status::ReadFault, "{call}");
        assert!(rt; ended.held.is_empty(), "{call}");
    }
    let ended = call_with(alloc, "step", SUM.as_bytes(), 1, 98, 4096, 0)?;
    assert!(rt; ended.status == Status::Done);
    for word in ["step", "central"] {
        let ended = call_with(alloc, word, SUM.as_bytes(), 16, 2, 4096, 0)?;
        assert!(rt; ended.status == Status::ReadFault, "{word}");
        assert!(rt; ended.held.is_empty(), "{word}");
    }
    Ok(())
}
