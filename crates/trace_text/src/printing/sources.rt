// The line of the sources of a service.
ghost use Rattle.std.specs.Prelude.{◌≡◌, ◌<◌, ◌++◌, length, codes, OnOk, OnErr};
ghost use Rattle.std.specs.Io.{StartsWith};
ghost use Rattle.propagation.specs.Stamps.{keys};
ghost use Rattle.trace_text.specs.Lines.{after_commas, comma_list};
ghost use Rattle.trace_text.specs.Named.{naming, KeysBelow};
ghost use Rattle.trace_text.specs.Notes.{key_text, sources_line};

use stamp_clock::{Pairs, Stamps};
use svc_graph::Book;
use svc_value::{OutOfMemory, ServiceId};

/// Appends to `out` the line of the sources of the service `id` of `book`: the keys of `stamps`, each of them declared in `book`,
/// by their names. After `OutOfMemory` `out` is as it was.
pub fn sources_text(
    book: &Book,
    id: ServiceId,
    stamps: &Stamps,
    out: &mut Vec<u8>,
) -> Result<(), OutOfMemory>
    requires owner { id < length book.now }
    requires named { KeysBelow (length book.now) stamps.now }
    ensures ok { OnOk result (out.new.items ≡ out.old.items ++ sources_line (naming book.now) id (keys stamps.now)) }
    ensures err { OnErr result (out.new.items ≡ out.old.items) }
{
    let start = out.len();
    let result = append_sources(book, id, stamps, out);
    if result.is_err() {
        out.truncate(start);
    }
    result
}

// Appends the line, of which a front may stand behind `out` after `OutOfMemory`, as in each function below.
fn append_sources(
    book: &Book,
    id: ServiceId,
    stamps: &Stamps,
    out: &mut Vec<u8>,
) -> Result<(), OutOfMemory>
    requires owner { id < length book.now }
    requires named { KeysBelow (length book.now) stamps.now }
    ensures ok { OnOk result (out.new.items ≡ out.old.items ++ sources_line (naming book.now) id (keys stamps.now)) }
    ensures kept { StartsWith out.new.items out.old.items }
{
    out.extend_from_slice(b"# sources ")?;
    out.extend_from_slice(book.name(id).as_bytes())?;
    out.extend_from_slice(b" ")?;
    append_names(book, stamps, out)?;
    out.extend_from_slice(b"\n")?;
    Ok(())
}

// Appends the names of the keys.
fn append_names(book: &Book, stamps: &Stamps, out: &mut Vec<u8>) -> Result<(), OutOfMemory>
    requires { KeysBelow (length book.now) stamps.now }
    ensures ok { OnOk result (out.new.items ≡ out.old.items ++ comma_list (naming book.now) (keys stamps.now)) }
    ensures kept { StartsWith out.new.items out.old.items }
{
    append_keys(book, stamps, out)?;
    Ok(())
}

// Appends the name of each key.
fn append_keys(book: &Book, stamps: &Stamps, out: &mut Vec<u8>) -> Result<(), OutOfMemory>
    requires { KeysBelow (length book.now) stamps.now }
    ensures ok { OnOk result (out.new.items ≡ out.old.items ++ comma_list (key_text (naming book.now)) stamps.now) }
    ensures kept { StartsWith out.new.items out.old.items }
{
    let mut pairs = stamps.iter();
    let Some((key, _)) = pairs.next() else {
        return Ok(());
    };
    out.extend_from_slice(book.name(key).as_bytes())?;
    append_other_keys(book, pairs, out)
}

// Appends the names of keys, with a comma before each.
fn append_other_keys(book: &Book, pairs: Pairs<'_>, out: &mut Vec<u8>) -> Result<(), OutOfMemory>
    requires { KeysBelow (length book.now) pairs }
    ensures ok { OnOk result (out.new.items ≡ out.old.items ++ after_commas (key_text (naming book.now)) pairs.entry) }
    ensures kept { StartsWith out.new.items out.old.items }
{
    for (key, _) in pairs {
        append_key(book, key, out)?;
    }
    Ok(())
}

// Appends the name of a key behind a comma.
fn append_key(book: &Book, key: ServiceId, out: &mut Vec<u8>) -> Result<(), OutOfMemory>
    requires { key < length book.now }
    ensures ok { OnOk result (out.new.items ≡ out.old.items ++ (codes "," ++ naming book.now key)) }
    ensures kept { StartsWith out.new.items out.old.items }
{
    out.extend_from_slice(b",")?;
    out.extend_from_slice(book.name(key).as_bytes())?;
    Ok(())
}
