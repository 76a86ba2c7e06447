// Calls of the program, from memory to memory.
use node_threads::NoGate;
use qprop_cli::{Outcome, qprop, qprop_plain};
use std::alloc::Global;
use std::str;
use std::test::Fail;
use std::thread::Threads;
use svc_value::{Bytes, MemorySink, MemorySource};

// What a call wrote, the status with which the process would end, and whether it handed out a network.
#[derive(Drop)]
pub(crate) struct Ended {
    pub(crate) exit: u8,
    pub(crate) has_network: bool,
    sink: MemorySink,
}

impl Ended {
    // The text that was written.
    pub(crate) fn text(&self) -> &str {
        held_by(&self.sink)
    }
}

// The text that a sink holds.
pub(crate) fn held_by(sink: &MemorySink) -> &str {
    str::from_utf8(sink.held()).unwrap_or("")
}

// The words of a text, which stand between blanks.
fn owned(alloc: Global, words: &str) -> Result<Vec<String>, Fail> {
    let mut all = Vec::new(alloc);
    for word in words.split_whitespace() {
        all.push(String::from_str(alloc, word)?)?;
    }
    Ok(all)
}

pub(crate) fn source_of(alloc: Global, document: &[u8]) -> Result<MemorySource, Fail> {
    let bytes = Bytes::from_slice(alloc, document)?;
    Ok(MemorySource::new(bytes, 4096, Vec::new(alloc)))
}

pub(crate) fn new_sink(alloc: Global) -> Result<MemorySink, Fail> {
    Ok(MemorySink::new(alloc, 65536, 4096, Vec::new(alloc))?)
}

pub(crate) fn outcome_of<R: Threads + Sync>(
    rt: &R,
    alloc: Global,
    words: &str,
    source: &mut MemorySource,
    sink: &mut MemorySink,
) -> Result<Outcome, Fail> {
    let words = owned(alloc, words)?;
    Ok(qprop(rt, alloc, &words, source, sink, &NoGate))
}

fn plain_outcome_of(
    alloc: Global,
    words: &str,
    source: &mut MemorySource,
    sink: &mut MemorySink,
) -> Result<Outcome, Fail> {
    let words = owned(alloc, words)?;
    Ok(qprop_plain(alloc, &words, source, sink))
}

fn end_of<R: Threads + Sync>(
    rt: &R,
    alloc: Global,
    words: &str,
    document: &[u8],
    sink: &mut MemorySink,
) -> Result<(u8, bool), Fail> {
    let mut source = source_of(alloc, document)?;
    let outcome = outcome_of(rt, alloc, words, &mut source, sink)?;
    Ok((outcome.status.exit_status(), outcome.network.is_some()))
}

fn plain_end_of(
    alloc: Global,
    words: &str,
    document: &[u8],
    sink: &mut MemorySink,
) -> Result<(u8, bool), Fail> {
    let mut source = source_of(alloc, document)?;
    let outcome = plain_outcome_of(alloc, words, &mut source, sink)?;
    Ok((outcome.status.exit_status(), outcome.network.is_some()))
}

// A call with these words on the document.
pub(crate) fn call<R: Threads + Sync>(
    rt: &R,
    alloc: Global,
    words: &str,
    document: &[u8],
) -> Result<Ended, Fail> {
    let mut sink = new_sink(alloc)?;
    let (exit, has_network) = end_of(rt, alloc, words, document, &mut sink)?;
    Ok(Ended {
        exit,
        has_network,
        sink,
    })
}

// The same without threads.
pub(crate) fn plain_call(alloc: Global, words: &str, document: &[u8]) -> Result<Ended, Fail> {
    let mut sink = new_sink(alloc)?;
    let (exit, has_network) = plain_end_of(alloc, words, document, &mut sink)?;
    Ok(Ended {
        exit,
        has_network,
        sink,
    })
}

// Whether a call with these words on the document is done, hands out a network and writes just this text.
pub(crate) fn writes<R: Threads + Sync>(
    rt: &R,
    alloc: Global,
    words: &str,
    document: &[u8],
    text: &str,
) -> Result<bool, Fail> {
    let ended = call(rt, alloc, words, document)?;
    Ok(ended.exit == 0 && ended.has_network && ended.text() == text)
}

// Whether `run` and `step` are done with the document, and both write this settled text.
pub(crate) fn settles_to<R: Threads + Sync>(
    rt: &R,
    alloc: Global,
    document: &[u8],
    text: &str,
) -> Result<bool, Fail> {
    let ran = writes(rt, alloc, "run", document, text)?;
    let stepped = writes(rt, alloc, "step", document, text)?;
    Ok(ran && stepped)
}

// Whether a call with these words on the document ends so, hands out no network and writes just this text.
pub(crate) fn ends_with<R: Threads + Sync>(
    rt: &R,
    alloc: Global,
    words: &str,
    document: &[u8],
    exit: u8,
    text: &str,
) -> Result<bool, Fail> {
    let ended = call(rt, alloc, words, document)?;
    Ok(ended.exit == exit && !ended.has_network && ended.text() == text)
}
