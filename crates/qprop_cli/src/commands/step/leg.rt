// One leg, run on one thread.
ghost use Rattle.std.specs.Prelude.{◌≡◌, true, OnOk};
ghost use Rattle.settle_core.specs.Quiet.{is_quiet};
ghost use Rattle.svc_plan.specs.Rows.{rows_after, IsLegAfter};
ghost use Rattle.svc_plan.specs.declared.plan.Mode.TheVariants.{Step};
ghost use Rattle.qprop_cli.specs.Inside.StepLines.{RunsLeg};

use super::events::make_steps;
use crate::commands::settling::runner::LegRunner;
use settle_core::Network;
use svc_plan::Leg;
use svc_value::OutOfMemory;

/// Runs legs by the events of their step lines, and then by a drain.
#[derive(Drop)]
pub(crate) struct OneThread;

impl LegRunner for OneThread {
    ghost mode = { Step };

    ghost can_run = { λ _. Unit {0} };

    fn run_leg(
        &self,
        network: &mut Network,
        leg: &Leg,
        is_noted: bool,
        out: &mut Vec<u8>,
    ) -> Result<(), OutOfMemory> {
        run_leg(network, leg, is_noted, out)
    }
}

/// Runs a leg: opens it, makes the events of its step lines, and drains. The lines of their notes are appended to `out`, if they are
/// wanted.
pub(crate) fn run_leg(
    network: &mut Network,
    leg: &Leg,
    is_noted: bool,
    out: &mut Vec<u8>,
) -> Result<(), OutOfMemory>
    requires quiet { is_quiet network.old ≡ true }
    requires leg { IsLegAfter network.old.rows leg.now }
    ensures rows { OnOk result (network.new.rows ≡ rows_after network.old.rows leg.now) }
    ensures quiet { OnOk result (is_quiet network.new ≡ true) }
    ensures ran { OnOk result (RunsLeg is_noted network.old.rows leg.now network.new out.old.items out.new.items) }
{
    network.open_leg(leg)?;
    make_steps(network, leg.steps.as_slice(), is_noted, out)?;
    network.kept();
    network.drain()?;
    network.kept();
    Ok(())
}
