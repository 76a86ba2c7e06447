// Three workers wait for each other at each of six turns: so all three are at work at once.
use crate::legs::{SUM, run_document};
use crate::logs::count_taken;
use node_core::Node;
use node_threads::Gate;
use std::sync::atomic::{AtomicBool, AtomicU32, Ordering};
use std::test::Fail;
use std::thread;

// So many turns are held, each for so many looks.
const TURNS: u32 = 6;

const LOOKS: u32 = 100_000_000;

// The number of `total`.
const TOTAL: u16 = 2;

// Notes each turn, and holds it until the same turn of the other two has come; after a hold that is too long it holds nothing more.
#[derive(Drop)]
struct Holding {
    turns: [AtomicU32; 3],
    taken: AtomicU32,
    is_late: AtomicBool,
}

impl Holding {
    fn new() -> Holding {
        Holding {
            turns: [AtomicU32::new(0), AtomicU32::new(0), AtomicU32::new(0)],
            taken: AtomicU32::new(0),
            is_late: AtomicBool::new(false),
        }
    }

    // Whether this turn of each service has come.
    fn has_come(&self, number: u32) -> bool {
        for turn in &self.turns {
            if turn.load(Ordering::SeqCst) < number {
                return false;
            }
        }
        true
    }

    fn hold(&self, number: u32) {
        for _ in 0..LOOKS {
            if self.has_come(number) || self.is_late.load(Ordering::SeqCst) {
                return;
            }
            thread::yield_now();
        }
        self.is_late.store(true, Ordering::SeqCst);
    }
}

impl Gate for Holding {
    fn at_turn(&self, service: u16, number: u32, node: &Node) {
        if service == TOTAL && number == TURNS {
            self.taken.store(count_taken(node.log()), Ordering::SeqCst);
        }
        if let Some(turn) = self.turns.get(usize::from(service)) {
            turn.store(number, Ordering::SeqCst);
        }
        if number <= TURNS {
            self.hold(number);
        }
    }
}

#[test]
fn workers_go_side_by_side(rt: HostRuntime) -> Result<(), Fail> {
    let gate = Holding::new();
    let values = run_document(&rt, rt.alloc(), SUM, &gate)?;
    assert_eq!(rt; values.as_slice(), b"3\n4\n7\n\n".as_slice());
    assert!(rt; !gate.is_late.load(Ordering::SeqCst));
    assert!(rt; gate.has_come(TURNS));
    assert_eq!(rt; gate.taken.load(Ordering::SeqCst), 4);
    Ok(())
}
