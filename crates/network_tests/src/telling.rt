// What a network tells of each leg, as text: the notes of its step lines, the logs, and the values.
ghost use Rattle.std.specs.Prelude.{◌≡◌, true};

use crate::playing::{Note, Observer, Step, play};
use node_core::{Computation, Entry};
use settle_core::Network;
use stamp_clock::Stamps;
use std::alloc::Global;
use std::test::Fail;
use svc_graph::Book;
use svc_value::{ServiceId, Value, print_value};

/// What a network told of one leg: a line for each step line, log entry and service.
#[derive(Drop)]
pub(crate) struct Block {
    pub(crate) notes: String,
    pub(crate) logs: String,
    pub(crate) values: String,
}

// The blocks of the legs until now.
#[derive(Drop)]
struct Teller {
    alloc: Global,
    blocks: Vec<Block>,
}

impl Observer for Teller {
    fn settled(&mut self, network: &Network, steps: &[Step]) -> Result<(), Fail> {
        let block = Block {
            notes: notes(self.alloc, network.book(), steps)?,
            logs: logs(self.alloc, network)?,
            values: values(self.alloc, self.blocks.len(), network)?,
        };
        self.blocks.push(block)?;
        Ok(())
    }
}

/// What a document's network tells of each leg.
pub(crate) fn blocks(alloc: Global, document: &str) -> Result<Vec<Block>, Fail> {
    let mut teller = Teller {
        alloc,
        blocks: Vec::new(alloc),
    };
    play(alloc, document, &mut teller)?;
    Ok(teller.blocks)
}

// The name of a service of a book.
fn name_of(book: &Book, id: ServiceId) -> &str {
    if usize::from(id.0) < book.len() {
        book.name(id)
    } else {
        "?"
    }
}

fn value_text(alloc: Global, value: &Value) -> Result<String, Fail> {
    let mut bytes = Vec::new(alloc);
    print_value(value, &mut bytes)?;
    match String::from_utf8(bytes) {
        Ok(text) => Ok(text),
        Err(_) => Err("a value is no text".into()),
    }
}

fn note_text(alloc: Global, book: &Book, note: Note) -> Result<String, Fail> {
    let text = match note {
        Note::Did => String::from_str(alloc, "did")?,
        Note::Took => String::from_str(alloc, "took")?,
        Note::Idle => String::from_str(alloc, "idle")?,
        Note::Computed => String::from_str(alloc, "computed")?,
        Note::Advanced => String::from_str(alloc, "advanced")?,
        Note::Still => String::from_str(alloc, "still")?,
        Note::Empty(sender) => {
            let sender = name_of(book, sender);
            format!(in alloc; "empty {sender}")?
        }
        Note::Lags(sender, key) => {
            let (sender, key) = (name_of(book, sender), name_of(book, key));
            format!(in alloc; "lags {sender} {key}")?
        }
    };
    Ok(text)
}

fn notes(alloc: Global, book: &Book, steps: &[Step]) -> Result<String, Fail> {
    let mut text = String::new(alloc);
    for step in steps {
        let line = step.line;
        let note = note_text(alloc, book, step.note)?;
        text.push_str(format!(in alloc; "# step {line} {note}\n")?.as_str())?;
    }
    Ok(text)
}

fn hex(alloc: Global, bytes: &[u8]) -> Result<String, Fail> {
    let mut text = String::new(alloc);
    for byte in bytes {
        text.push_str(format!(in alloc; "{byte:02x}")?.as_str())?;
    }
    Ok(text)
}

fn stamps_text(alloc: Global, book: &Book, stamps: &Stamps) -> Result<String, Fail> {
    let mut text = String::new(alloc);
    for (key, clock) in stamps.iter() {
        if !text.is_empty() {
            text.push_str(",")?;
        }
        let name = name_of(book, key);
        let clock = clock.0;
        text.push_str(format!(in alloc; "{name}@{clock}")?.as_str())?;
    }
    Ok(text)
}

fn picks_text(alloc: Global, picks: &[u64]) -> Result<String, Fail> {
    if picks.is_empty() {
        return Ok(String::from_str(alloc, "-")?);
    }
    let mut text = String::new(alloc);
    for pick in picks {
        if !text.is_empty() {
            text.push_str(",")?;
        }
        text.push_str(format!(in alloc; "{pick}")?.as_str())?;
    }
    Ok(text)
}

fn computation_text(alloc: Global, book: &Book, computation: &Computation) -> Result<String, Fail> {
    let value = value_text(alloc, &computation.value)?;
    let stamps = stamps_text(alloc, book, &computation.stamps)?;
    let picks = picks_text(alloc, computation.picks.as_slice())?;
    Ok(format!(in alloc; "computed {value} with {stamps} picks {picks}")?)
}

fn frame_text(
    alloc: Global,
    book: &Book,
    word: &str,
    id: ServiceId,
    bytes: &[u8],
) -> Result<String, Fail> {
    let name = name_of(book, id);
    let bytes = hex(alloc, bytes)?;
    Ok(format!(in alloc; "{word} {name} {bytes}")?)
}

fn entry_text(alloc: Global, book: &Book, entry: &Entry) -> Result<String, Fail> {
    match entry {
        Entry::Did(clock) => Ok(format!(in alloc; "did {clock}")?),
        Entry::Took(id, bytes) => frame_text(alloc, book, "took", *id, bytes.as_slice()),
        Entry::Computed(computation) => computation_text(alloc, book, computation),
        Entry::Sent(id, bytes) => frame_text(alloc, book, "sent", *id, bytes.as_slice()),
    }
}

fn push_log(
    alloc: Global,
    book: &Book,
    id: ServiceId,
    log: &[Entry],
    text: &mut String,
) -> Result<(), Fail> {
    let name = name_of(book, id);
    for entry in log {
        let entry = entry_text(alloc, book, entry)?;
        text.push_str(format!(in alloc; "# log {name} {entry}\n")?.as_str())?;
    }
    Ok(())
}

fn logs(alloc: Global, network: &Network) -> Result<String, Fail> {
    let book = network.book();
    let mut text = String::new(alloc);
    for number in 0..book.len() {
        let id = ServiceId(number as u16);
        push_log(alloc, book, id, network.node(id).log(), &mut text)?;
    }
    Ok(text)
}

// The line `settle K` after `before` legs, and the values.
fn values(alloc: Global, before: usize, network: &Network) -> Result<String, Fail> {
    if !network.quiet() {
        return Err("the network is not quiet".into());
    }
    let book = network.book();
    let leg = before.saturating_add(1);
    let mut text = format!(in alloc; "settle {leg}\n")?;
    let values = network.values()?;
    for number in 0..book.len() {
        let name = name_of(book, ServiceId(number as u16));
        let Some(value) = values.get(number) else {
            return Err("a value is missing".into());
        };
        let value = value_text(alloc, value)?;
        text.push_str(format!(in alloc; "{name} {value}\n")?.as_str())?;
    }
    Ok(text)
}

/// The lines of a text that begin so.
pub(crate) fn lines_from(alloc: Global, text: &str, front: &str) -> Result<String, Fail> {
    let mut found = String::new(alloc);
    for line in text.lines() {
        if line.starts_with(front) {
            found.push_str(line)?;
            found.push_str("\n")?;
        }
    }
    Ok(found)
}
