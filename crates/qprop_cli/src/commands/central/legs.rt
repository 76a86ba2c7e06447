// The settled text of legs by the central evaluation.
ghost use Rattle.std.specs.Prelude.{◌≤◌, ◌⊎◌, ◌≡◌, [], length, OnOk, OnErr, IsErrOf};
ghost use Rattle.std.specs.Io.KnownBytes.{Keeps};
ghost use Rattle.svc_plan.specs.Rows.{rows_after, EachBorn, IsLegAfter, AreLegsAfter};
ghost use Rattle.svc_value.specs.Causes.{Rose};
ghost use Rattle.trace_text.specs.Settled.{Settles};
ghost use Rattle.qprop_cli.specs.Inside.Blocks.{IsBlock, AddsBlock, BeginsBlock, AddsText, BeginsText};

use crate::io::writing::{WriteError, write_all};
use central_eval::central;
use std::alloc::Global;
use svc_graph::Book;
use svc_plan::{Leg, extend};
use svc_value::limits::MAX_LEGS;
use svc_value::{OutOfMemory, Sink};
use trace_text::settled_text;

// Takes the leg number `k`, from 1, into the book, and puts its block in place of `text`.
#[tactic(auto, using(crate::proofs::CentralLemmas::values_length))]
fn evaluate_leg(
    alloc: Global,
    book: &mut Book,
    k: u32,
    leg: &Leg,
    text: &mut Vec<u8>,
) -> Result<(), OutOfMemory>
    requires leg { IsLegAfter book.old leg.now }
    requires born { EachBorn book.old }
    ensures rows { OnOk result (book.new ≡ rows_after book.old leg.now) }
    ensures born { OnOk result (EachBorn book.new) }
    ensures block { OnOk result (IsBlock k (rows_after book.old leg.now) text.new.items) }
{
    extend(alloc, book, leg)?;
    let values = central(alloc, book)?;
    text.clear();
    settled_text(k, book, &values, text)
}

// Takes the leg number `k` into the book, and writes its block. The sink gains nothing before the block is whole.
fn write_leg<K: Sink>(
    alloc: Global,
    book: &mut Book,
    k: u32,
    leg: &Leg,
    text: &mut Vec<u8>,
    sink: &mut K,
) -> Result<(), WriteError>
    requires leg { IsLegAfter book.old leg.now }
    requires born { EachBorn book.old }
    ensures rows { OnOk result (book.new ≡ rows_after book.old leg.now) }
    ensures born { OnOk result (EachBorn book.new) }
    ensures added { OnOk result (AddsBlock (IsBlock k (rows_after book.old leg.now)) (K.held sink.old) (K.held sink.new)) }
    ensures begun { OnErr result ((Keeps (K.held sink.old) (K.held sink.new)) ⊎ BeginsBlock (IsBlock k (rows_after book.old leg.now)) (K.held sink.old) (K.held sink.new)) }
    ensures later { K.faults sink.old ≤ K.faults sink.new }
    ensures fault { IsErrOf result WriteError.Fault → Rose (K.faults sink.old) (K.faults sink.new) }
{
    evaluate_leg(alloc, book, k, leg, text)?;
    write_all(sink, text)?;
    Ok(())
}

/// Takes the legs, from the first one of a document on, into a book, and writes the block of each after it. What was written
/// when it stops is a beginning of the blocks of the legs that were taken.
pub(crate) fn evaluate_legs<K: Sink>(
    alloc: Global,
    legs: &[Leg],
    sink: &mut K,
) -> Result<(), WriteError>
    requires legs { AreLegsAfter [] legs.now }
    requires few { length legs.now ≤ MAX_LEGS }
    ensures settled { OnOk result (AddsText (Settles 0 []) (K.held sink.old) (K.held sink.new) legs.now) }
    ensures begun { OnErr result (BeginsText (Settles 0 []) (K.held sink.old) (K.held sink.new) legs.now) }
    ensures later { K.faults sink.old ≤ K.faults sink.new }
    ensures fault { IsErrOf result WriteError.Fault → Rose (K.faults sink.old) (K.faults sink.new) }
{
    let mut book = Book::new(alloc);
    let mut text = Vec::new(alloc);
    for i in 0..legs.len() {
        write_leg(alloc, &mut book, i as u32 + 1, &legs[i], &mut text, sink)?;
    }
    Ok(())
}
