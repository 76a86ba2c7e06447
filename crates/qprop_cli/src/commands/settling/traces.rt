// The trace lines of a leg that was run.
ghost use Rattle.std.specs.Prelude.{◌≡◌, ◌++◌, true, OnOk};
ghost use Rattle.settle_core.specs.Quiet.{is_quiet};
ghost use Rattle.trace_text.specs.Blocks.{if_wanted};
ghost use Rattle.trace_text.specs.Lines.{family_text, logs_text};
ghost use Rattle.trace_text.specs.Named.{naming};
ghost use Rattle.trace_text.specs.Notes.{sources_lines};
ghost use Rattle.qprop_cli.specs.Commands.Step.{all_sources, logs_of};

use command_words::TraceFlags;
use settle_core::Network;
use svc_value::{OutOfMemory, ServiceId};
use trace_text::{sources_text, trace_text};

/// Appends the log lines of all services, if they are asked for, and then their source lines, if these are.
pub(crate) fn append_traces(
    network: &Network,
    flags: TraceFlags,
    out: &mut Vec<u8>,
) -> Result<(), OutOfMemory>
    requires { is_quiet network.now ≡ true }
    ensures { OnOk result (out.new.items ≡ out.old.items ++ (if_wanted flags.trace (family_text (naming network.now.rows) (logs_of network.now.services)) ++ if_wanted flags.sources (sources_lines (naming network.now.rows) 0 (all_sources network.now.services)))) }
{
    if flags.trace {
        append_logs(network, out)?;
    }
    if flags.sources {
        append_sources(network, out)?;
    }
    Ok(())
}

// Appends the log lines of each service.
fn append_logs(network: &Network, out: &mut Vec<u8>) -> Result<(), OutOfMemory>
    ensures { OnOk result (out.new.items ≡ out.old.items ++ logs_text (naming network.now.rows) 0 (logs_of network.now.services)) }
{
    network.kept();
    let book = network.book();
    for i in 0..book.len() {
        let id = ServiceId(i as u16);
        trace_text(book, id, network.node(id).log(), out)?;
    }
    Ok(())
}

// Appends the source line of each service.
fn append_sources(network: &Network, out: &mut Vec<u8>) -> Result<(), OutOfMemory>
    requires { is_quiet network.now ≡ true }
    ensures { OnOk result (out.new.items ≡ out.old.items ++ sources_lines (naming network.now.rows) 0 (all_sources network.now.services)) }
{
    network.kept();
    let book = network.book();
    for i in 0..book.len() {
        let id = ServiceId(i as u16);
        let stamps = network.node(id).sources().unwrap();
        sources_text(book, id, stamps, out)?;
    }
    Ok(())
}
