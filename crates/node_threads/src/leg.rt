// All workers of a leg.
ghost use Rattle.std.specs.Prelude.{◌≡◌, ◌<◌, ℕ, IfOk, OnOk, length, map, slice_index_or, true};
ghost use Rattle.settle_core.specs.Legs.{IsLegal, IsSettled};
ghost use Rattle.settle_core.specs.Quiet.{is_quiet};
ghost use Rattle.settle_core.specs.Running.{Goes};
ghost use Rattle.settle_core.specs.Workers.{AllGoOn, GoesOn, HasBegun, HasEnded, SameLeg};

use crate::{Gate, work};
use crossbeam_utils::CachePadded;
use settle_core::{Crew, Network, Worker};
use std::alloc::Global;
use std::sync::atomic::AtomicU64;
use std::thread;
use std::thread::Threads;
use svc_value::OutOfMemory;

// A worker after its leg, and whether it had memory enough.
#[derive(Drop)]
struct Done {
    worker: Worker,
    result: Result<(), OutOfMemory>,
}

// Runs one worker.
fn run_one<G: Gate>(worker: Worker, gate: &G, hint: &AtomicU64) -> Done
    ensures goes_on { GoesOn worker result.worker }
    ensures ended { OnOk result.result (HasEnded result.worker) }
{
    let mut worker = worker;
    let result = work(&mut worker, gate, hint);
    Done { worker, result }
}

// Runs the workers side by side; where no thread can be made, one after another.
fn run_all<R: Threads + Sync, G: Gate>(
    rt: &R,
    workers: Vec<Worker>,
    gate: &G,
) -> Result<Vec<Done>, OutOfMemory>
    ensures count { IfOk result (λ done. length done.items ≡ length workers.items) }
    ensures go_on { IfOk result (λ done. (i : ℕ) (w : _) (d : _) → i < length workers.items → GoesOn (slice_index_or workers.items i w) (slice_index_or done.items i d).worker) }
    ensures ended { IfOk result (λ done. (i : ℕ) (d : _) → i < length workers.items → OnOk (slice_index_or done.items i d).result (HasEnded (slice_index_or done.items i d).worker)) }
{
    let hint = CachePadded::new(AtomicU64::new(workers.len() as u64));
    let word: &AtomicU64 = &hint;
    Ok(thread::map_vec(rt, workers, &|worker| { run_one(worker, gate, word) })?)
}

// The workers, where each of them had memory enough.
fn workers_of(alloc: Global, done: Vec<Done>) -> Result<Vec<Worker>, OutOfMemory>
    ensures { IfOk result (λ workers. workers.items ≡ map (λ d. d.worker) done.items) }
{
    let mut workers = Vec::new(alloc);
    for Done { worker, result } in done {
        result?;
        workers.push(worker)?;
    }
    Ok(workers)
}

// Runs the workers of a crew side by side.
fn run_crew<R: Threads + Sync, G: Gate>(
    rt: &R,
    alloc: Global,
    crew: Crew,
    gate: &G,
) -> Result<Crew, OutOfMemory>
    ensures book { IfOk result (λ after. after.book ≡ crew.book) }
    ensures go_on { IfOk result (λ after. AllGoOn crew.workers.items after.workers.items) }
{
    let Crew { book, workers } = crew;
    let done = run_all(rt, workers, gate)?;
    let workers = workers_of(alloc, done)?;
    Ok(Crew { book, workers })
}

// Drains a network, and tells what then holds of it.
fn drained(network: Network) -> Result<Network, OutOfMemory>
    ensures goes { IfOk result (Goes network) }
    ensures quiet { IfOk result (λ after. is_quiet after ≡ true) }
    ensures legal { IfOk result IsLegal }
    ensures settled { IfOk result IsSettled }
{
    let mut network = network;
    network.drain()?;
    network.book();
    network.quiet();
    Ok(network)
}

/// Runs the leg that `network` has begun: its services side by side, each as a job of its own that `work` does, and where no thread
/// can be made, one after another. Then the network is put together again, and drained. `gate` is called before each turn of a
/// worker.
///
/// The answer has the same book and is in the same leg. It is quiet and settled, and its run is legal: each computation is true,
/// and the work bounded. `OutOfMemory` only when memory runs out; then the network is gone.
pub fn run_leg<R: Threads + Sync, G: Gate>(
    rt: &R,
    alloc: Global,
    network: Network,
    gate: &G,
) -> Result<Network, OutOfMemory>
    requires { HasBegun network }
    ensures leg { IfOk result (SameLeg network) }
    ensures quiet { IfOk result (λ after. is_quiet after ≡ true) }
    ensures legal { IfOk result IsLegal }
    ensures settled { IfOk result IsSettled }
{
    network.kept();
    let crew = network.into_workers()?;
    let after = run_crew(rt, alloc, crew, gate)?;
    let gathered = Network::from_workers(alloc, after)?;
    drained(gathered)
}
