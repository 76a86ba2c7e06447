// How a leg is run.
use settle_core::Network;
use svc_plan::Leg;
use svc_value::OutOfMemory;

/// What runs legs.
pub(crate) trait LegRunner {
    ghost use Rattle.std.specs.Prelude.{◌≡◌, true, OnOk};
    ghost use Rattle.settle_core.specs.Quiet.{is_quiet};
    ghost use Rattle.svc_plan.specs.Rows.{rows_after, IsLegAfter};
    ghost use Rattle.svc_plan.specs.declared.plan.Mode.{Mode};
    ghost use Rattle.qprop_cli.specs.Inside.StepLines.{FitsMode, RunsLeg};

    /// The mode of the documents whose legs it runs.
    ghost mode: { Mode };

    /// What must hold of it before it can run any leg.
    ghost can_run: { Self → Type 0 };

    /// Runs `leg`: opens it, makes the events of its step lines, and then whatever is left to do. The lines of the notes of its step
    /// lines are appended to `out`, if they are wanted. `OutOfMemory` only when memory runs out; then the leg is not done.
    fn run_leg(
        &self,
        network: &mut Network,
        leg: &Leg,
        is_noted: bool,
        out: &mut Vec<u8>,
    ) -> Result<(), OutOfMemory>
        requires quiet { is_quiet network.old ≡ true }
        requires leg { IsLegAfter network.old.rows leg.now }
        requires mode { FitsMode mode leg.now }
        requires can_run { can_run self.now }
        ensures rows { OnOk result (network.new.rows ≡ rows_after network.old.rows leg.now) }
        ensures quiet { OnOk result (is_quiet network.new ≡ true) }
        ensures ran { OnOk result (RunsLeg is_noted network.old.rows leg.now network.new out.old.items out.new.items) };
}
