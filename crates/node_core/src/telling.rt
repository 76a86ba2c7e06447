// The frames that tell readers of an emission.
ghost use Rattle.std.specs.Prelude.{◌≡◌, ◌≤◌, ◌<◌, ◌∷◌, [], true, length, IfOk, All};
ghost use Rattle.propagation.specs.Logs.{stamps_of, tell, in_full};
ghost use Rattle.propagation.specs.Stamps.{same_keys as have_same_keys};
ghost use Rattle.service_machine.specs.Steps.{reports, sends_to};
ghost use Rattle.stamp_clock.specs.Beside.{AreStamps};
ghost use Rattle.wire_frame.specs.Frames.{IsAnnounced, IsDelta};
ghost use Rattle.node_core.specs.Outgoing.{Says, each_told, value_frames, full_frames};
ghost use Rattle.node_core.specs.View.{told_all};

use crate::encoding::{sources_bytes, value_bytes};
use crate::outgoing::Outgoing;
use crate::reports::{all_places_of, changes_of, keys_of, same_keys};
use crate::scratch::Scratch;
use pred_queue::Emission;
use stamp_clock::Stamps;
use std::alloc::Global;
use svc_value::{Clock, OutOfMemory, ServiceId, Value};
use wire_frame::PlaceClock;

// A value to each reader under its epoch, in a list of frames that is empty. The bytes are made once, under the epoch of the
// last one, to which they go.
fn outgoing_values(
    alloc: Global,
    readers: &[(ServiceId, Clock)],
    value: &Value,
    clocks: &[PlaceClock],
    mut outgoing: Outgoing,
) -> Result<Outgoing, OutOfMemory>
    requires epochs { All (λ reader. 1 ≤ reader.1) readers.now }
    requires layout { IsDelta (record { epoch = 1; value = value.now; clocks = clocks.now }) }
    requires empty { outgoing ≡ [] }
    ensures { IfOk result (λ outgoing. Says outgoing (each_told readers.now (value_frames (record { epoch = 1; value = value.now; clocks = clocks.now })))) }
{
    let Some(last) = readers.len().checked_sub(1) else {
        return Ok(outgoing);
    };
    let end = readers[last];
    let value = value_bytes(alloc, end.1, value, clocks)?;
    for i in 0..last {
        let reader = readers[i];
        outgoing.add_under(reader.0, value.as_slice(), reader.1)?;
    }
    outgoing.add(end.0, value)?;
    Ok(outgoing)
}

// Keys and a value to each reader under its epoch, in a list of frames that is empty. The bytes are made once, under the epoch
// of the last one, to which they go.
fn outgoing_in_full(
    alloc: Global,
    readers: &[(ServiceId, Clock)],
    keys: &[ServiceId],
    value: &Value,
    clocks: &[PlaceClock],
    mut outgoing: Outgoing,
) -> Result<Outgoing, OutOfMemory>
    requires epochs { All (λ reader. 1 ≤ reader.1) readers.now }
    requires keys { IsAnnounced (record { epoch = 1; keys = keys.now }) }
    requires layout { IsDelta (record { epoch = 1; value = value.now; clocks = clocks.now }) }
    requires empty { outgoing ≡ [] }
    ensures { IfOk result (λ outgoing. Says outgoing (each_told readers.now (full_frames (record { epoch = 1; keys = keys.now }) (record { epoch = 1; value = value.now; clocks = clocks.now })))) }
{
    let Some(last) = readers.len().checked_sub(1) else {
        return Ok(outgoing);
    };
    let end = readers[last];
    let sources = sources_bytes(alloc, end.1, keys)?;
    let value = value_bytes(alloc, end.1, value, clocks)?;
    for i in 0..last {
        let reader = readers[i];
        outgoing.add_under(reader.0, sources.as_slice(), reader.1)?;
        outgoing.add_under(reader.0, value.as_slice(), reader.1)?;
    }
    outgoing.add(end.0, sources)?;
    outgoing.add(end.0, value)?;
    Ok(outgoing)
}

// The emission in full to each reader.
pub(crate) fn tell_in_full(
    alloc: Global,
    readers: &[(ServiceId, Clock)],
    emission: &Emission,
    scratch: &mut Scratch,
) -> Result<Outgoing, OutOfMemory>
    requires epochs { All (λ reader. 1 ≤ reader.1) readers.now }
    requires some { 0 < length emission.now.stamps }
    ensures { IfOk result (λ outgoing. Says outgoing (each_told readers.now (λ epoch. in_full epoch emission.now))) }
{
    let stamps = &emission.stamps;
    let keys = keys_of(alloc, stamps)?;
    let outgoing = scratch.take_outgoing().emptied();
    all_places_of(stamps, &mut scratch.places)?;
    let clocks = scratch.places.as_slice();
    outgoing_in_full(
        alloc,
        readers,
        keys.as_slice(),
        &emission.value,
        clocks,
        outgoing,
    )
}

// What changed since the stamps `told`, which have the same keys, to each reader.
fn tell_changes(
    alloc: Global,
    readers: &[(ServiceId, Clock)],
    told: &Stamps,
    emission: &Emission,
    scratch: &mut Scratch,
) -> Result<Outgoing, OutOfMemory>
    requires epochs { All (λ reader. 1 ≤ reader.1) readers.now }
    requires same { have_same_keys told.now emission.now.stamps ≡ true }
    ensures { IfOk result (λ outgoing. Says outgoing (each_told readers.now (λ epoch. tell epoch told.now emission.now))) }
{
    let outgoing = scratch.take_outgoing().emptied();
    changes_of(told, &emission.stamps, &mut scratch.places)?;
    let clocks = scratch.places.as_slice();
    outgoing_values(alloc, readers, &emission.value, clocks, outgoing)
}

// The frames that tell an emission to readers that were told the stamps `told` last.
fn tell_after(
    alloc: Global,
    readers: &[(ServiceId, Clock)],
    told: &Stamps,
    emission: &Emission,
    scratch: &mut Scratch,
) -> Result<Outgoing, OutOfMemory>
    requires epochs { All (λ reader. 1 ≤ reader.1) readers.now }
    requires some { 0 < length emission.now.stamps }
    ensures { IfOk result (λ outgoing. Says outgoing (reports (told_all told.now readers.now) emission.now)) }
{
    if same_keys(told, &emission.stamps) {
        tell_changes(alloc, readers, told, emission, scratch)
    } else {
        tell_in_full(alloc, readers, emission, scratch)
    }
}

// The frames that tell an emission to readers that were told the last one.
pub(crate) fn tell_all(
    alloc: Global,
    readers: &[(ServiceId, Clock)],
    last: &Option<Emission>,
    emission: &Emission,
    scratch: &mut Scratch,
) -> Result<Outgoing, OutOfMemory>
    requires epochs { All (λ reader. 1 ≤ reader.1) readers.now }
    requires some { 0 < length emission.now.stamps }
    ensures { IfOk result (λ outgoing. Says outgoing (reports (told_all (stamps_of last.now) readers.now) emission.now)) }
{
    if readers.is_empty() {
        return Ok(Outgoing::new(alloc));
    }
    match last {
        None => tell_in_full(alloc, readers, emission, scratch),
        Some(told) => tell_after(alloc, readers, &told.stamps, emission, scratch),
    }
}
