// Laws of printed texts.
ghost use Rattle.std.specs.Prelude.{◌≡◌, ℕ, List, []};
ghost use Rattle.svc_plan.specs.Rows.{AreLegsAfter};
ghost use Rattle.trace_text.specs.Laws.{BooksAreNamed, FamiliesAreOne, LinesAreOne, TracesAreLeftOut, UntracedTextsSettle};
ghost use Rattle.trace_text.specs.Settled.{Settles};
ghost use Rattle.trace_text.specs.Untraced.{untraced};

use svc_plan::Leg;

/// The settled text of legs that can be taken has no trace lines: without them it is the same text.
pub fn settled_text_is_untraced()
    ensures { (legs : List Leg) (text : List ℕ) → AreLegsAfter [] legs → Settles 0 [] legs text → untraced text ≡ text }
{}

/// A line is the line of at most one entry of one service, for given names.
pub fn one_trace_line()
    ensures { LinesAreOne }
{}

/// A text is the text of at most one family, for given names.
pub fn one_family()
    ensures { FamiliesAreOne }
{}

/// The trace lines of a leg are left out of an untraced text.
pub fn traces_are_left_out()
    ensures { TracesAreLeftOut }
{}

/// Without its trace lines the text of legs that can be taken is their settled text, whichever trace lines are wanted.
pub fn untraced_texts_settle()
    ensures { UntracedTextsSettle }
{}

/// The services of a book have names of the document language, no two the same, where each of its rows has such a name.
pub fn books_are_named()
    ensures { BooksAreNamed }
{}
