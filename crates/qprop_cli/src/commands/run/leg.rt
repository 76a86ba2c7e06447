// One leg, run by a call.
use crate::commands::settling::runner::LegRunner;
use settle_core::Network;
use std::alloc::Global;
use std::mem;
use svc_plan::Leg;
use svc_value::OutOfMemory;

/// Runs legs without step lines by a call, which takes a network in which a leg was opened, does whatever is left to do, and hands the
/// network back.
#[derive(Drop)]
pub(crate) struct ByCall<F> {
    /// Where memory is taken from.
    pub(crate) alloc: Global,
    /// The call.
    pub(crate) call: F,
}

impl<F: Fn(Network) -> Result<Network, OutOfMemory>> LegRunner for ByCall<F> {
    ghost use Rattle.svc_plan.specs.declared.plan.Mode.TheVariants.{Plain};
    ghost use Rattle.qprop_cli.specs.Inside.Calls.{EndsLegs};

    ghost mode = { Plain };

    ghost can_run = { λ runner. EndsLegs F.pre F.post runner.call };

    // After `OutOfMemory` the network is gone, and one without services stands in its place.
    fn run_leg(
        &self,
        network: &mut Network,
        leg: &Leg,
        _: bool,
        _: &mut Vec<u8>,
    ) -> Result<(), OutOfMemory> {
        network.open_leg(leg)?;
        let opened = mem::replace(network, Network::new(self.alloc));
        let ended = (self.call)(opened)?;
        ended.kept();
        let _ = mem::replace(network, ended);
        Ok(())
    }
}
