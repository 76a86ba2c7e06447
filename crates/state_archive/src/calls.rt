// The calls of a fake, of which some fail.
ghost use Rattle.std.specs.Prelude.{◌≡◌, ◌≤◌, ◌==◌, if◌then◌else◌, IsTrue};
ghost use Rattle.std.specs.List.{list_any};
ghost use Rattle.svc_value.specs.Causes.{Rose, one_more};
ghost use Rattle.state_archive.specs.Fakes.{next_fails, after_call};

use std::marker::Model;

/// How often a fake was called and how often it failed, with the numbers of the calls that fail, counted from 1.
#[derive(Drop)]
pub struct Calls {
    failing: Vec<u32>,
    made: u64,
    faults: u64,
}

impl Model for Calls {
    ghost use Rattle.state_archive.specs.Fakes.{CallsState};

    ghost Value = { CallsState };

    ghost view = { λ c. record {
      failing = c.failing.items;
      made = c.made;
      faults = c.faults;
    } };
}

impl Calls {
    /// No call so far; those of the numbers in `failing` are to fail.
    pub fn new(failing: Vec<u32>) -> Calls
        ensures { result ≡ record { failing = failing.items; made = 0; faults = 0 } }
    {
        Calls {
            failing,
            made: 0,
            faults: 0,
        }
    }

    /// Counts a call, and a fault where it is one that fails; tells whether it is.
    pub fn next_fails(&mut self) -> bool
        ensures fails { result ≡ next_fails self.old }
        ensures counted { self.new ≡ after_call self.old }
        ensures later { self.old.faults ≤ self.new.faults }
        ensures rose { IsTrue result → Rose self.old.faults self.new.faults }
    {
        self.made = self.made.saturating_add(1);
        let fails = is_among(&self.failing, self.made);
        self.faults = faults_after(self.faults, fails);
        fails
    }
}

// Whether the call of this number is one of those that fail.
fn is_among(failing: &[u32], made: u64) -> bool
    ensures { result ≡ list_any (λ call. call == made) failing.now }
{
    failing.iter().any(|call| u64::from(*call) == made)
}

// The count of faults after a call.
fn faults_after(faults: u64, fails: bool) -> u64
    ensures { result ≡ (if fails then one_more faults else faults) }
{
    if fails {
        faults.saturating_add(1)
    } else {
        faults
    }
}
