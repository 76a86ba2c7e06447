// A computation in a log line. After `OutOfMemory` a front of what is appended may stand behind `out`.
ghost use Rattle.std.specs.Prelude.{◌≡◌, ◌<◌, ◌++◌, ◌∷◌, length, codes, OnOk};
ghost use Rattle.std.specs.Fmt.{decimal};
ghost use Rattle.std.specs.Io.{StartsWith};
ghost use Rattle.svc_value.specs.Printed.{printed_value};
ghost use Rattle.trace_text.specs.Lines.{after_commas, computation_text, picks_text, stamp_text, stamps_text};
ghost use Rattle.trace_text.specs.Named.{naming, KeysBelow};

use crate::printing::parts::append_number;
use node_core::{Computation, Picks};
use stamp_clock::{Pairs, Stamps};
use svc_graph::Book;
use svc_value::{Clock, OutOfMemory, ServiceId, Value, print_value};

// Appends the text of a computation behind `computed`.
pub(crate) fn append_computation(
    book: &Book,
    computation: &Computation,
    out: &mut Vec<u8>,
) -> Result<(), OutOfMemory>
    requires { KeysBelow (length book.now) computation.now.stamps }
    ensures ok { OnOk result (out.new.items ≡ out.old.items ++ (codes "computed " ++ computation_text (naming book.now) computation.now)) }
    ensures kept { StartsWith out.new.items out.old.items }
{
    append_value(&computation.value, out)?;
    append_stamps(book, &computation.stamps, out)?;
    out.extend_from_slice(b" picks ")?;
    append_picks(&computation.picks, out)
}

// Appends the value, behind `computed` and before `with`.
fn append_value(value: &Value, out: &mut Vec<u8>) -> Result<(), OutOfMemory>
    ensures ok { OnOk result (out.new.items ≡ out.old.items ++ (codes "computed " ++ (printed_value value.now ++ codes " with "))) }
    ensures kept { StartsWith out.new.items out.old.items }
{
    out.extend_from_slice(b"computed ")?;
    print_value(value, out)?;
    out.extend_from_slice(b" with ")?;
    Ok(())
}

// Appends the keys with their clocks.
fn append_stamps(book: &Book, stamps: &Stamps, out: &mut Vec<u8>) -> Result<(), OutOfMemory>
    requires { KeysBelow (length book.now) stamps.now }
    ensures ok { OnOk result (out.new.items ≡ out.old.items ++ stamps_text (naming book.now) stamps.now) }
    ensures kept { StartsWith out.new.items out.old.items }
{
    let mut pairs = stamps.iter();
    let Some((key, clock)) = pairs.next() else {
        return Ok(());
    };
    append_stamp(book, key, clock, out)?;
    append_other_stamps(book, pairs, out)
}

// Appends the keys with their clocks, with a comma before each.
fn append_other_stamps(book: &Book, pairs: Pairs<'_>, out: &mut Vec<u8>) -> Result<(), OutOfMemory>
    requires { KeysBelow (length book.now) pairs }
    ensures ok { OnOk result (out.new.items ≡ out.old.items ++ after_commas (stamp_text (naming book.now)) pairs.entry) }
    ensures kept { StartsWith out.new.items out.old.items }
{
    for (key, clock) in pairs {
        out.extend_from_slice(b",")?;
        append_stamp(book, key, clock, out)?;
    }
    Ok(())
}

// Appends a key with its clock.
fn append_stamp(
    book: &Book,
    key: ServiceId,
    clock: Clock,
    out: &mut Vec<u8>,
) -> Result<(), OutOfMemory>
    requires { key < length book.now }
    ensures ok { OnOk result (out.new.items ≡ out.old.items ++ stamp_text (naming book.now) (key, clock)) }
    ensures kept { StartsWith out.new.items out.old.items }
{
    out.extend_from_slice(book.name(key).as_bytes())?;
    out.extend_from_slice(b"@")?;
    append_number(u64::from(clock.0), out)
}

// Appends the picks.
fn append_picks(picks: &Picks, out: &mut Vec<u8>) -> Result<(), OutOfMemory>
    ensures ok { OnOk result (out.new.items ≡ out.old.items ++ picks_text picks.now) }
    ensures kept { StartsWith out.new.items out.old.items }
{
    let [first, others @ ..] = picks.as_slice() else {
        out.extend_from_slice(b"-")?;
        return Ok(());
    };
    append_number(*first, out)?;
    append_other_picks(others, out)
}

// Appends picks with a comma before each.
fn append_other_picks(picks: &[u64], out: &mut Vec<u8>) -> Result<(), OutOfMemory>
    ensures ok { OnOk result (out.new.items ≡ out.old.items ++ after_commas decimal picks.now) }
    ensures kept { StartsWith out.new.items out.old.items }
{
    for pick in picks {
        out.extend_from_slice(b",")?;
        append_number(*pick, out)?;
    }
    Ok(())
}
