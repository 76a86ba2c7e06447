// The members of one generated service.
ghost use Rattle.std.specs.Prelude.{◌≡◌, ◌==◌, [], ◌∷◌, ◌++◌, not, filter, length, if◌then◌else◌, IfOk, OnOk};
ghost use Rattle.propagation.specs.Lists.{is_among};

use std::alloc::Global;
use std::marker::Model;
pub use svc_value::limits::MAX_DEPENDENCIES;
use svc_value::{OutOfMemory, ServiceId};

/// The members of one generated service, by number. Contracts see them as the list.
#[derive(Drop)]
pub struct Members {
    numbers: Vec<ServiceId>,
}

impl Model for Members {
    ghost use Rattle.std.specs.Prelude.{List, ℕ};

    ghost Value = { List ℕ };

    ghost view = { λ members. members.numbers.items };
}

// Whether the number is in the list.
fn is_among(numbers: &[ServiceId], q: ServiceId) -> bool
    ensures { result ≡ is_among numbers.now q }
{
    numbers.contains(&q)
}

impl Members {
    /// The two members, or one where both are the same, with room for more in memory of `alloc`.
    pub fn new(alloc: Global, p: u16, q: u16) -> Result<Members, OutOfMemory>
        ensures { IfOk result (λ members. members ≡ (if p == q then p ∷ [] else p ∷ q ∷ [])) }
    {
        let mut numbers = Vec::with_capacity(alloc, MAX_DEPENDENCIES)?;
        numbers.push(ServiceId(p))?;
        if p != q {
            numbers.push(ServiceId(q))?;
        }
        Ok(Members { numbers })
    }

    /// Whether this is a member.
    pub fn contains(&self, q: u16) -> bool
        ensures { result ≡ is_among self.now q }
    {
        is_among(self.numbers.as_slice(), ServiceId(q))
    }

    /// The number of members.
    pub fn len(&self) -> usize
        ensures { result ≡ length self.now }
    {
        self.numbers.len()
    }

    /// Appends a member.
    pub fn add(&mut self, q: u16) -> Result<(), OutOfMemory>
        ensures { OnOk result (self.new ≡ self.old ++ q ∷ []) }
    {
        self.numbers.push(ServiceId(q))?;
        Ok(())
    }

    /// Takes a member out.
    pub fn remove(&mut self, q: u16)
        ensures { self.new ≡ filter (λ p. not (p == q)) self.old }
    {
        self.numbers.retain(|p| p.0 != q);
    }
}
