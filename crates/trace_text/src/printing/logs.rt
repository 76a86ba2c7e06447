// The lines of a log.
ghost use Rattle.std.specs.Prelude.{◌≡◌, ◌<◌, ◌++◌, length, All, OnOk, OnErr};
ghost use Rattle.std.specs.Io.{StartsWith};
ghost use Rattle.trace_text.specs.Lines.{entry_line, entry_text, frame_text, log_text};
ghost use Rattle.trace_text.specs.Named.{naming, NamesBelow};

use crate::printing::computations::append_computation;
use crate::printing::parts::{append_hex, append_number};
use node_core::Entry;
use svc_graph::Book;
use svc_value::{OutOfMemory, ServiceId};

/// Appends to `out` the lines of `log`, which is the log of the service `id` of `book`, oldest entry first. Every service that an
/// entry names is declared in `book`. After `OutOfMemory` `out` is as it was.
pub fn trace_text(
    book: &Book,
    id: ServiceId,
    log: &[Entry],
    out: &mut Vec<u8>,
) -> Result<(), OutOfMemory>
    requires owner { id < length book.now }
    requires named { All (NamesBelow (length book.now)) log.now }
    ensures ok { OnOk result (out.new.items ≡ out.old.items ++ log_text (naming book.now) id log.now) }
    ensures err { OnErr result (out.new.items ≡ out.old.items) }
{
    let start = out.len();
    let result = append_log(book, id, log, out);
    if result.is_err() {
        out.truncate(start);
    }
    result
}

// Appends the lines, of which a front may stand behind `out` after `OutOfMemory`, as in each function below.
fn append_log(
    book: &Book,
    id: ServiceId,
    log: &[Entry],
    out: &mut Vec<u8>,
) -> Result<(), OutOfMemory>
    requires owner { id < length book.now }
    requires named { All (NamesBelow (length book.now)) log.now }
    ensures ok { OnOk result (out.new.items ≡ out.old.items ++ log_text (naming book.now) id log.now) }
    ensures kept { StartsWith out.new.items out.old.items }
{
    for entry in log {
        append_entry(book, id, entry, out)?;
    }
    Ok(())
}

// Appends the line of an entry.
fn append_entry(
    book: &Book,
    id: ServiceId,
    entry: &Entry,
    out: &mut Vec<u8>,
) -> Result<(), OutOfMemory>
    requires owner { id < length book.now }
    requires named { NamesBelow (length book.now) entry.now }
    ensures ok { OnOk result (out.new.items ≡ out.old.items ++ entry_line (naming book.now) id entry.now) }
    ensures kept { StartsWith out.new.items out.old.items }
{
    out.extend_from_slice(b"# log ")?;
    out.extend_from_slice(book.name(id).as_bytes())?;
    out.extend_from_slice(b" ")?;
    append_entry_text(book, entry, out)?;
    out.extend_from_slice(b"\n")?;
    Ok(())
}

// Appends what stands behind the name of the service.
fn append_entry_text(book: &Book, entry: &Entry, out: &mut Vec<u8>) -> Result<(), OutOfMemory>
    requires named { NamesBelow (length book.now) entry.now }
    ensures ok { OnOk result (out.new.items ≡ out.old.items ++ entry_text (naming book.now) entry.now) }
    ensures kept { StartsWith out.new.items out.old.items }
{
    match entry {
        Entry::Did(clock) => {
            out.extend_from_slice(b"did ")?;
            append_number(u64::from(*clock), out)
        }
        Entry::Took(sender, bytes) => {
            out.extend_from_slice(b"took ")?;
            append_frame(book, *sender, bytes.as_slice(), out)
        }
        Entry::Computed(computation) => append_computation(book, computation, out),
        Entry::Sent(receiver, bytes) => {
            out.extend_from_slice(b"sent ")?;
            append_frame(book, *receiver, bytes.as_slice(), out)
        }
    }
}

// Appends the name of a service and the digits of a frame.
fn append_frame(
    book: &Book,
    id: ServiceId,
    bytes: &[u8],
    out: &mut Vec<u8>,
) -> Result<(), OutOfMemory>
    requires { id < length book.now }
    ensures ok { OnOk result (out.new.items ≡ out.old.items ++ frame_text (naming book.now) id bytes.now) }
    ensures kept { StartsWith out.new.items out.old.items }
{
    out.extend_from_slice(book.name(id).as_bytes())?;
    out.extend_from_slice(b" ")?;
    append_hex(bytes, out)
}
