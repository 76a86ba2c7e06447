//! Laws over every type of values `V` and of definitions `D`: each is the contract of a function that does nothing.
ghost use Rattle.judged_run.specs.Laws.{VerdictsAreOne, OneVerdictHolds, VerdictsAreExact, MachinesAreExact, LegalRunsAreRuns, LegalRunsAreTraced, LegalRunsAreSettled};
ghost use Rattle.judged_run.specs.Table.{RulesAreTheTable};
ghost use Rattle.judged_run.specs.Forms.{FormsAreTexts};
ghost use Rattle.judged_run.specs.Opened.{CentralValuesOpen};

/// When a line breaks a rule, row by row.
pub fn rules_are_the_table<V, D>()
    ensures { RulesAreTheTable V D }
{}

/// A run has at most one verdict.
pub fn verdicts_are_one<V, D>()
    ensures { VerdictsAreOne V D }
{}

/// A run has a verdict, and only that one.
pub fn one_verdict_holds<V, D>()
    ensures { OneVerdictHolds V D }
{}

/// The tests of the lines give it.
pub fn verdicts_are_exact<V, D>()
    ensures { VerdictsAreExact V D }
{}

/// No line breaks a rule exactly where each block is legal and quiet and each value central.
pub fn legal_runs_are_runs<V, D>()
    ensures { LegalRunsAreRuns V D }
{}

/// A legal run is settled after each leg, and its computations are true.
pub fn legal_runs_are_settled<V, D>()
    ensures { LegalRunsAreSettled V D }
{}

/// The machine that reads line by line gives the verdict.
pub fn machines_are_exact<V, D>()
    ensures { MachinesAreExact V D }
{}

/// No line breaks a rule exactly where the lines are the text of such blocks; then without log lines they are the settled text.
pub fn legal_runs_are_traced<V, D>()
    ensures { LegalRunsAreTraced V D }
{}

/// The form that is read line by line is that of a text, and of what begins one.
pub fn forms_are_texts<V, D>()
    ensures { FormsAreTexts V D }
{}

/// Central values after one leg open the next.
pub fn central_values_open<V, D>()
    ensures { CentralValuesOpen V D }
{}
