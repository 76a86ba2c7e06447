//! What always holds of states and their bytes.
ghost use Rattle.std.specs.Prelude.{◌≡◌, ◌≤◌, ℕ, List};
ghost use Rattle.svc_graph.specs.Book.{IsBook};
ghost use Rattle.svc_graph.specs.Central.{AreBorn};
ghost use Rattle.svc_graph.specs.History.{Row};
ghost use Rattle.svc_value.specs.declared.limits.TheConstants.{MAX_LEGS};
ghost use Rattle.saved_state.specs.Bytes.{IsStateOf};
ghost use Rattle.saved_state.specs.States.{saved_of_rows, IsSayable, IsState};
ghost use Rattle.saved_state.specs.declared.saved.Saved.{Saved};

/// Bytes are those of one state at most.
pub fn one_state()
    ensures { (a b : Saved) (bytes : List ℕ) → IsStateOf a bytes → IsStateOf b bytes → a ≡ b }
{}

/// What is saved of a sayable book after a leg from 1 to 1000 is a state.
pub fn saved_is_state()
    ensures { (leg : ℕ) (rows : List Row) → 1 ≤ leg → leg ≤ MAX_LEGS → IsBook rows → AreBorn rows → IsSayable rows → IsState (saved_of_rows leg rows) }
{}
