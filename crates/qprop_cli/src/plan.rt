// The plan of the document that a source gives.
ghost use Rattle.std.specs.Prelude.{◌≡◌, ◌≢◌, ◌≤◌, [], length, Err, IfOk};
ghost use Rattle.document_reading.specs.Document.{IsRefusal};
ghost use Rattle.document_reading.specs.declared.refusal.Refusal.{Refusal as AnyRefusal};
ghost use Rattle.svc_plan.specs.Rows.{AreLegsAfter};
ghost use Rattle.svc_value.specs.Causes.{Rose};
ghost use Rattle.qprop_cli.specs.Inside.Input.{GivesLegs};
ghost use Rattle.qprop_cli.specs.Outcome.{Refuses};

use crate::command_error::CommandError;
use crate::io::reading::{ReadError, read_all};
use document_reading::{DocError, read_document};
use std::alloc::Global;
use svc_plan::{Mode, Plan};
use svc_value::Source;
use svc_value::limits::{MAX_DOCUMENT_LEN, MAX_LEGS};

/// Reads `source` to its end, and the document that it gave, in this mode; the plan is in memory of `alloc`. `Refused`
/// exactly where the document is not accepted; `ReadFault` only where the source's count of faults rose; `OutOfMemory`
/// when memory runs out. After each of them the bytes that were read are gone.
#[tactic(auto, using(crate::proofs::InputLemmas::document_given, crate::proofs::InputLemmas::document_refused))]
pub(crate) fn read_plan<S: Source>(
    alloc: Global,
    mode: Mode,
    source: &mut S,
) -> Result<Plan, CommandError>
    ensures plan { IfOk result (λ plan. GivesLegs mode (S.left source.old) (S.left source.new) plan.legs) }
    ensures legs { IfOk result (λ plan. AreLegsAfter [] plan.legs) }
    ensures few { IfOk result (λ plan. length plan.legs ≤ MAX_LEGS) }
    ensures refused { (refusal : AnyRefusal) → result ≡ Err (CommandError.Refused refusal) →
        Refuses MAX_DOCUMENT_LEN (IsRefusal mode) (S.left source.old) (S.left source.new) refusal }
    ensures read_fault { result ≡ Err CommandError.ReadFault → Rose (S.faults source.old) (S.faults source.new) }
    ensures no_write_fault { result ≢ Err CommandError.WriteFault }
{
    let bytes = match read_all(alloc, MAX_DOCUMENT_LEN, source) {
        Ok(bytes) => bytes,
        Err(ReadError::Fault) => return Err(CommandError::ReadFault),
        Err(ReadError::OutOfMemory) => return Err(CommandError::OutOfMemory),
    };
    match read_document(alloc, &bytes, mode) {
        Ok(plan) => Ok(plan),
        Err(DocError::Refused(refusal)) => Err(CommandError::Refused(refusal)),
        Err(DocError::OutOfMemory) => Err(CommandError::OutOfMemory),
    }
}
