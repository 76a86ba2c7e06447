// The line of a frame.
ghost use Rattle.std.specs.Prelude.{◌≡◌, ◌++◌, codes, OnOk};
ghost use Rattle.qprop_cli.specs.Numbers.{number_text};
ghost use Rattle.qprop_cli.specs.Commands.FrameLine.{place_text, places_text, frame_line};
ghost use Rattle.trace_text.specs.Lines.{comma_list};
ghost use Rattle.svc_value.specs.Printed.{printed_value};

use svc_value::{Clock, OutOfMemory, ServiceId, Value, print_value};
use wire_frame::{Frame, PlaceClock};

/// What stands in a list of a line.
trait Listed: Copy {
    ghost use Rattle.std.specs.Prelude.{ℕ, List};

    /// Its text.
    ghost text: { Self → List ℕ };

    /// Appends its text.
    fn push_text(self, out: &mut Vec<u8>) -> Result<(), OutOfMemory>
        ensures { OnOk result (out.new.items ≡ out.old.items ++ text self) };
}

impl Listed for ServiceId {
    ghost text = { number_text };

    fn push_text(self, out: &mut Vec<u8>) -> Result<(), OutOfMemory> {
        push_number(u32::from(self.0), out)
    }
}

impl Listed for Clock {
    ghost text = { number_text };

    fn push_text(self, out: &mut Vec<u8>) -> Result<(), OutOfMemory> {
        push_number(self.0, out)
    }
}

impl Listed for PlaceClock {
    ghost text = { place_text };

    fn push_text(self, out: &mut Vec<u8>) -> Result<(), OutOfMemory> {
        push_number(u32::from(self.place), out)?;
        out.extend_from_slice(b":")?;
        push_number(self.clock.0, out)
    }
}

/// Appends the decimal digits of `number`.
fn push_number(number: u32, out: &mut Vec<u8>) -> Result<(), OutOfMemory>
    ensures { OnOk result (out.new.items ≡ out.old.items ++ number_text number) }
{
    print_value(&Value::Int(i64::from(number)), out)
}

/// Appends the texts of `items`, with a comma before each but the first.
fn push_list<T: Listed>(items: &[T], out: &mut Vec<u8>) -> Result<(), OutOfMemory>
    ensures { OnOk result (out.new.items ≡ out.old.items ++ comma_list T.text items.now) }
{
    let [first, others @ ..] = items else {
        return Ok(());
    };
    first.push_text(out)?;
    for item in others {
        out.extend_from_slice(b",")?;
        item.push_text(out)?;
    }
    Ok(())
}

/// Appends the places with their clocks, or `-` for none.
fn push_places(clocks: &[PlaceClock], out: &mut Vec<u8>) -> Result<(), OutOfMemory>
    ensures { OnOk result (out.new.items ≡ out.old.items ++ places_text clocks.now) }
{
    if clocks.is_empty() {
        out.extend_from_slice(b"-")?;
        return Ok(());
    }
    push_list(clocks, out)
}

/// Appends `word`, which ends with a blank, and the epoch.
fn push_head(word: &[u8], epoch: Clock, out: &mut Vec<u8>) -> Result<(), OutOfMemory>
    ensures { OnOk result (out.new.items ≡ out.old.items ++ (word.now ++ number_text epoch)) }
{
    out.extend_from_slice(word)?;
    push_number(epoch.0, out)
}

/// Appends the value between the epoch and the clocks.
fn push_value(value: &Value, out: &mut Vec<u8>) -> Result<(), OutOfMemory>
    ensures { OnOk result (out.new.items ≡ out.old.items ++ (codes " " ++ printed_value value.now ++ codes " clocks ")) }
{
    out.extend_from_slice(b" ")?;
    print_value(value, out)?;
    out.extend_from_slice(b" clocks ")?;
    Ok(())
}

/// Appends the line of `frame`. After `OutOfMemory` a beginning of it may stand behind `out`.
pub(crate) fn push_frame(frame: &Frame, out: &mut Vec<u8>) -> Result<(), OutOfMemory>
    ensures { OnOk result (out.new.items ≡ out.old.items ++ frame_line frame.now) }
{
    match frame {
        Frame::Subscribe(epoch) => push_head(b"subscribe ", *epoch, out)?,
        Frame::Unsubscribe(epoch) => push_head(b"unsubscribe ", *epoch, out)?,
        Frame::Sources(announced) => {
            push_head(b"sources ", announced.epoch, out)?;
            out.extend_from_slice(b" ")?;
            push_list(announced.keys.as_slice(), out)?;
        }
        Frame::Carried(cargo) => {
            push_head(b"value ", cargo.epoch, out)?;
            push_value(&cargo.value, out)?;
            push_list(cargo.clocks.as_slice(), out)?;
        }
        Frame::Changed(delta) => {
            push_head(b"value2 ", delta.epoch, out)?;
            push_value(&delta.value, out)?;
            push_places(delta.clocks.as_slice(), out)?;
        }
    }
    out.extend_from_slice(b"\n")?;
    Ok(())
}
