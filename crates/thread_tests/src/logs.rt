// What was sent and taken, as logs tell it.
ghost use Rattle.std.specs.Prelude.{◌<◌, length};

use node_core::Entry;
use settle_core::Network;
use std::alloc::Global;
use std::test::Fail;
use svc_value::ServiceId;

/// How many frames were taken.
pub(crate) fn count_taken(log: &[Entry]) -> u32 {
    let mut count = 0u32;
    for entry in log {
        if matches!(entry, Entry::Took(_, _)) {
            count = count.saturating_add(1);
        }
    }
    count
}

// The frames that a log sent to a service, one after another, each behind its length.
fn sent_to(alloc: Global, log: &[Entry], to: u16) -> Result<Vec<u8>, Fail> {
    let mut all = Vec::new(alloc);
    for entry in log {
        if let Entry::Sent(id, bytes) = entry {
            if id.0 == to {
                append(&mut all, bytes.as_slice())?;
            }
        }
    }
    Ok(all)
}

// The frames that it took from a service.
fn taken_from(alloc: Global, log: &[Entry], from: u16) -> Result<Vec<u8>, Fail> {
    let mut all = Vec::new(alloc);
    for entry in log {
        if let Entry::Took(id, bytes) = entry {
            if id.0 == from {
                append(&mut all, bytes.as_slice())?;
            }
        }
    }
    Ok(all)
}

fn append(all: &mut Vec<u8>, bytes: &[u8]) -> Result<(), Fail> {
    all.push((bytes.len() % 256) as u8)?;
    all.push((bytes.len() / 256 % 256) as u8)?;
    all.extend_from_slice(bytes)?;
    Ok(())
}

// The log of a service.
fn log_of(network: &Network, id: u16) -> &[Entry]
    requires { id < length network.now.rows }
{
    network.node(ServiceId(id)).log()
}

/// Whether all that one service sent to another was taken, in order; and how many frames the other took in all.
pub(crate) fn all_taken(
    alloc: Global,
    network: &Network,
    from: u16,
    to: u16,
) -> Result<(bool, u32), Fail> {
    let count = network.book().len();
    if usize::from(from) >= count || usize::from(to) >= count {
        return Err("a service is not declared".into());
    }
    let sent = sent_to(alloc, log_of(network, from), to)?;
    let taken = taken_from(alloc, log_of(network, to), from)?;
    Ok((sent == taken, count_taken(log_of(network, to))))
}
