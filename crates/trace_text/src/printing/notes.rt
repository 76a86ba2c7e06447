// The line of a note.
ghost use Rattle.std.specs.Prelude.{◌≡◌, ◌<◌, ◌++◌, length, codes, OnOk, OnErr};
ghost use Rattle.std.specs.Io.{StartsWith};
ghost use Rattle.trace_text.specs.Named.{naming};
ghost use Rattle.trace_text.specs.Notes.{IsNoteOf, note_of, note_text, step_line, turn_note};

use crate::StepNote;
use crate::printing::parts::append_number;
use node_core::Turned;
use svc_graph::Book;
use svc_value::{OutOfMemory, ServiceId};

/// Appends to `out` the line of the note of the step line that stands on line `line` of the document. Every service that `note`
/// names is declared in `book`. After `OutOfMemory` `out` is as it was.
pub fn step_text(
    book: &Book,
    line: u32,
    note: StepNote,
    out: &mut Vec<u8>,
) -> Result<(), OutOfMemory>
    requires { IsNoteOf (length book.now) (note_of note) }
    ensures ok { OnOk result (out.new.items ≡ out.old.items ++ step_line (naming book.now) line (note_of note)) }
    ensures err { OnErr result (out.new.items ≡ out.old.items) }
{
    let start = out.len();
    let result = append_step(book, line, note, out);
    if result.is_err() {
        out.truncate(start);
    }
    result
}

// Appends the line, of which a front may stand behind `out` after `OutOfMemory`, as in each function below.
fn append_step(book: &Book, line: u32, note: StepNote, out: &mut Vec<u8>) -> Result<(), OutOfMemory>
    requires { IsNoteOf (length book.now) (note_of note) }
    ensures ok { OnOk result (out.new.items ≡ out.old.items ++ step_line (naming book.now) line (note_of note)) }
    ensures kept { StartsWith out.new.items out.old.items }
{
    out.extend_from_slice(b"# step ")?;
    append_number(u64::from(line), out)?;
    out.extend_from_slice(b" ")?;
    append_note(book, note, out)?;
    out.extend_from_slice(b"\n")?;
    Ok(())
}

// Appends what a note says.
fn append_note(book: &Book, note: StepNote, out: &mut Vec<u8>) -> Result<(), OutOfMemory>
    requires { IsNoteOf (length book.now) (note_of note) }
    ensures ok { OnOk result (out.new.items ≡ out.old.items ++ note_text (naming book.now) (note_of note)) }
    ensures kept { StartsWith out.new.items out.old.items }
{
    match note {
        StepNote::Did => append_word(b"did", out),
        StepNote::Took => append_word(b"took", out),
        StepNote::Turned(answer) => append_answer(book, answer, out),
        StepNote::Idle => append_word(b"idle", out),
    }
}

// Appends what the note of a turn says.
fn append_answer(book: &Book, answer: Turned, out: &mut Vec<u8>) -> Result<(), OutOfMemory>
    requires { IsNoteOf (length book.now) (turn_note answer) }
    ensures ok { OnOk result (out.new.items ≡ out.old.items ++ note_text (naming book.now) (turn_note answer)) }
    ensures kept { StartsWith out.new.items out.old.items }
{
    match answer {
        Turned::Computed => append_word(b"computed", out),
        Turned::Advanced => append_word(b"advanced", out),
        Turned::Empty(id) => append_named(b"empty ", book, id, out),
        Turned::Lags { sender, key } => {
            append_named(b"lags ", book, sender, out)?;
            append_named(b" ", book, key, out)
        }
        Turned::Still => append_word(b"still", out),
    }
}

// Appends a word and the name of a service.
fn append_named(
    word: &[u8],
    book: &Book,
    id: ServiceId,
    out: &mut Vec<u8>,
) -> Result<(), OutOfMemory>
    requires { id < length book.now }
    ensures ok { OnOk result (out.new.items ≡ out.old.items ++ (word.now ++ naming book.now id)) }
    ensures kept { StartsWith out.new.items out.old.items }
{
    append_word(word, out)?;
    append_word(book.name(id).as_bytes(), out)
}

// Appends a word.
fn append_word(word: &[u8], out: &mut Vec<u8>) -> Result<(), OutOfMemory>
    ensures ok { OnOk result (out.new.items ≡ out.old.items ++ word.now) }
    ensures kept { StartsWith out.new.items out.old.items }
{
    out.extend_from_slice(word)?;
    Ok(())
}
