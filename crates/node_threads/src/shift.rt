// What a worker keeps of itself while it works, and its part of the hint.
use std::sync::atomic::{AtomicU64, Ordering};

/// A worker's time at work: the number of its last turn, whether the hint counts it as one whose node is not at rest, and how many
/// frames it took that the hint still counts. Nothing is claimed of the hint.
#[derive(Drop)]
pub(crate) struct Shift {
    turn: u32,
    is_counted: bool,
    taken: u64,
}

impl Shift {
    /// The beginning: no turn is taken, and the hint counts the worker.
    pub(crate) fn new() -> Shift {
        Shift {
            turn: 0,
            is_counted: true,
            taken: 0,
        }
    }

    /// The number of the next turn. At the greatest number it stays.
    pub(crate) fn next_turn(&mut self) -> u32 {
        self.turn = self.turn.saturating_add(1);
        self.turn
    }

    /// Notes a frame that was taken.
    pub(crate) fn note_taken(&mut self) {
        self.taken = self.taken.wrapping_add(1);
    }

    /// Brings the hint up to date after a poll. A worker that is no longer at rest enters the hint before the frames that it took
    /// leave it.
    pub(crate) fn update(&mut self, is_at_rest: bool, hint: &AtomicU64) {
        if !is_at_rest && !self.is_counted {
            hint.fetch_add(1, Ordering::SeqCst);
            self.is_counted = true;
        }
        self.leave_taken(hint);
        if is_at_rest {
            self.leave_worker(hint);
        }
    }

    /// The worker and the frames that it took leave the hint.
    pub(crate) fn end(&mut self, hint: &AtomicU64) {
        self.leave_taken(hint);
        self.leave_worker(hint);
    }

    fn leave_taken(&mut self, hint: &AtomicU64) {
        if self.taken != 0 {
            hint.fetch_sub(self.taken, Ordering::SeqCst);
            self.taken = 0;
        }
    }

    fn leave_worker(&mut self, hint: &AtomicU64) {
        if self.is_counted {
            hint.fetch_sub(1, Ordering::SeqCst);
            self.is_counted = false;
        }
    }
}
