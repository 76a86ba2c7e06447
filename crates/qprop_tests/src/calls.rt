// Calls of the program, from memory to memory.
ghost use Rattle.std.specs.Prelude.{◌≤◌};

use qprop_cli::{Status, qprop_plain};
use std::alloc::Global;
use std::test::Fail;
use svc_value::{Bytes, MemorySink, MemorySource};

// Three services, two legs.
pub(crate) const SUM: &str =
    "input a : int = 3\ninput b : int = 4\nderived total : int rank 1 = a + b\nsettle\nset a = 10\nsettle\n";

pub(crate) const SUM_SETTLED: &str = "settle 1\na 3\nb 4\ntotal 7\nsettle 2\na 10\nb 4\ntotal 14\n";

// How a call ended, whether it handed out a network, and what the sink then held.
#[derive(Drop)]
pub(crate) struct Ended {
    pub(crate) status: Status,
    pub(crate) has_network: bool,
    pub(crate) held: Vec<u8>,
}

// A call of the word on the input, from a source of `gives` bytes a call and to a sink of `takes` bytes a call, whose calls of
// these numbers fail; 0 stands for none.
pub(crate) fn call_with(
    alloc: Global,
    word: &str,
    input: &[u8],
    gives: usize,
    source_fails: u64,
    takes: usize,
    sink_fails: u64,
) -> Result<Ended, Fail>
    requires gives { 1 ≤ gives }
    requires takes { 1 ≤ takes }
{
    let mut words = Vec::new(alloc);
    words.push(String::from_str(alloc, word)?)?;
    let bytes = Bytes::from_slice(alloc, input)?;
    let mut source = MemorySource::new(bytes, gives, vec![in alloc; source_fails]?);
    let mut sink = MemorySink::new(alloc, 65536, takes, vec![in alloc; sink_fails]?)?;
    let outcome = qprop_plain(alloc, &words, &mut source, &mut sink);
    let held = Vec::from_slice(alloc, sink.held())?;
    Ok(Ended {
        status: outcome.status,
        has_network: outcome.network.is_some(),
        held,
    })
}

// A call of the word on the input.
pub(crate) fn call(alloc: Global, word: &str, input: &[u8]) -> Result<Ended, Fail> {
    call_with(alloc, word, input, 4096, 0, 4096, 0)
}

// A call with these words on no document.
pub(crate) fn called(alloc: Global, words: &[&str]) -> Result<Ended, Fail> {
    let mut all = Vec::new(alloc);
    for word in words {
        all.push(String::from_str(alloc, word)?)?;
    }
    let mut source = MemorySource::new(Bytes::new(alloc), 1, Vec::new(alloc));
    let mut sink = MemorySink::new(alloc, 65536, 4096, Vec::new(alloc))?;
    let outcome = qprop_plain(alloc, &all, &mut source, &mut sink);
    let held = Vec::from_slice(alloc, sink.held())?;
    Ok(Ended {
        status: outcome.status,
        has_network: outcome.network.is_some(),
        held,
    })
}

// The line, so many times, behind another text.
pub(crate) fn repeated(
    alloc: Global,
    before: &str,
    line: &str,
    count: usize,
) -> Result<Vec<u8>, Fail> {
    let mut document = Vec::from_slice(alloc, before.as_bytes())?;
    for _ in 0..count {
        document.extend_from_slice(line.as_bytes())?;
    }
    Ok(document)
}
