// Calls of the program, from memory to memory.
use qprop_cli::{Outcome, qprop_plain};
use std::alloc::Global;
use std::str;
use std::test::Fail;
use svc_value::{Bytes, MemorySink, MemorySource};

// What a call wrote, and the status with which the process would end.
#[derive(Drop)]
pub(crate) struct Ended {
    pub(crate) exit: u8,
    sink: MemorySink,
}

impl Ended {
    // The text that was written.
    pub(crate) fn text(&self) -> &str {
        str::from_utf8(self.sink.held()).unwrap_or("")
    }
}

// The words of a text, which stand between blanks.
fn owned(alloc: Global, words: &str) -> Result<Vec<String>, Fail> {
    let mut all = Vec::new(alloc);
    for word in words.split_whitespace() {
        all.push(String::from_str(alloc, word)?)?;
    }
    Ok(all)
}

fn source_of(alloc: Global, document: &str) -> Result<MemorySource, Fail> {
    let bytes = Bytes::from_slice(alloc, document.as_bytes())?;
    Ok(MemorySource::new(bytes, 4096, Vec::new(alloc)))
}

fn new_sink(alloc: Global) -> Result<MemorySink, Fail> {
    Ok(MemorySink::new(alloc, 65536, 4096, Vec::new(alloc))?)
}

fn outcome_of(
    alloc: Global,
    words: &str,
    source: &mut MemorySource,
    sink: &mut MemorySink,
) -> Result<Outcome, Fail> {
    let words = owned(alloc, words)?;
    Ok(qprop_plain(alloc, &words, source, sink))
}

fn exit_of(alloc: Global, words: &str, document: &str, sink: &mut MemorySink) -> Result<u8, Fail> {
    let mut source = source_of(alloc, document)?;
    Ok(
        outcome_of(alloc, words, &mut source, sink)?
            .status
            .exit_status(),
    )
}

// A call with these words on the document.
pub(crate) fn call(alloc: Global, words: &str, document: &str) -> Result<Ended, Fail> {
    let mut sink = new_sink(alloc)?;
    let exit = exit_of(alloc, words, document, &mut sink)?;
    Ok(Ended { exit, sink })
}

// The outcome of a call with these words on no document.
pub(crate) fn outcome(alloc: Global, words: &str) -> Result<Outcome, Fail> {
    let mut source = source_of(alloc, "")?;
    outcome_to_sink(alloc, words, &mut source)
}

fn outcome_to_sink(alloc: Global, words: &str, source: &mut MemorySource) -> Result<Outcome, Fail> {
    let mut sink = new_sink(alloc)?;
    outcome_of(alloc, words, source, &mut sink)
}

// Whether a call with these words on the document ends so and writes just this text.
pub(crate) fn writes(
    alloc: Global,
    words: &str,
    document: &str,
    exit: u8,
    text: &str,
) -> Result<bool, Fail> {
    let ended = call(alloc, words, document)?;
    Ok(ended.exit == exit && ended.text() == text)
}
