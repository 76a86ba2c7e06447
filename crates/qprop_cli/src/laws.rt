//! Laws of the settled texts of `run` and `step`.
ghost use Rattle.qprop_cli.specs.Laws.{PlainDocumentsStep, LegsAreOne, SettledTextsAreOne, SettledOutputsAgree};

/// A document that is accepted without step lines is accepted with them too, and has the same legs.
pub fn plain_documents_step()
    ensures { PlainDocumentsStep }
{}

/// `run` and `step` write the same settled text of a document that both accept: it has the same legs for both, and legs have one
/// settled text.
pub fn settled_outputs_agree()
    ensures legs { LegsAreOne }
    ensures texts { SettledTextsAreOne }
    ensures outputs { SettledOutputsAgree }
{}
