// One thread pushes items, and one takes them.
ghost use Rattle.std.specs.Prelude.{◌≤◌, length, IfOk};

use crate::{PieceIn, PieceOut, RingLink};
use std::alloc::Global;
use std::test::Fail;
use std::thread;
use svc_value::Bytes;
use svc_value::limits::MAX_FRAME_LEN;

const ITEMS: u32 = 100_000;

// A look that finds nothing yields; so many of them in a row end a thread.
const LOOKS: u32 = 100_000_000;

// What a thread saw: how many items, and a sum over their bytes in which each byte's place counts.
#[derive(Clone, Copy, Debug, PartialEq, Eq)]
struct Seen {
    items: u32,
    sum: u64,
}

impl Seen {
    fn with(self, item: &[u8]) -> Seen {
        let mut sum = self.sum.wrapping_mul(31).wrapping_add(item.len() as u64);
        for byte in item {
            sum = sum.wrapping_mul(31).wrapping_add(u64::from(*byte));
        }
        Seen {
            items: self.items.wrapping_add(1),
            sum,
        }
    }
}

const NOTHING: Seen = Seen { items: 0, sum: 0 };

// The item of this number: lengths from 0 to 585 take turns.
fn item_of(alloc: Global, number: u32) -> Result<Bytes, svc_value::OutOfMemory>
    ensures { IfOk result (λ item. length item ≤ MAX_FRAME_LEN) }
{
    let bytes = [(number % 251) as u8; 585];
    let len = ((number % 586) as usize).min(585);
    Bytes::from_slice(alloc, &bytes[..len])
}

// Pushes one item, and says whether it was taken in time.
fn push_one(out: &mut PieceOut, item: Bytes) -> bool
    requires { length item ≤ MAX_FRAME_LEN }
{
    let mut item = item;
    for _ in 0..LOOKS {
        match out.push(item) {
            Ok(()) => return true,
            Err(back) => item = back,
        }
        thread::yield_now();
    }
    false
}

// Pushes all items, and then what is kept of the last one.
fn push_all(alloc: Global, out: PieceOut) -> Seen {
    let mut out = out;
    let mut seen = NOTHING;
    for number in 0..ITEMS {
        let Ok(item) = item_of(alloc, number) else {
            return seen;
        };
        seen = seen.with(item.as_slice());
        if !push_one(&mut out, item) {
            return seen;
        }
    }
    for _ in 0..LOOKS {
        if out.flush() {
            break;
        }
        thread::yield_now();
    }
    seen
}

// Takes all items.
fn take_all(into: PieceIn) -> Seen {
    let mut into = into;
    let mut seen = NOTHING;
    for _ in 0..LOOKS {
        if seen.items == ITEMS {
            break;
        }
        match into.pop_item() {
            Ok(Some(item)) => seen = seen.with(item.as_slice()),
            Ok(None) => thread::yield_now(),
            Err(_) => return seen,
        }
    }
    seen
}

#[test]
fn items_go_from_thread_to_thread(rt: HostRuntime) -> Result<(), Fail> {
    let alloc = rt.alloc();
    let (out, into) = RingLink::new(alloc)?.split();
    let out = PieceOut::new(out);
    let into = PieceIn::new(alloc, into);
    let (pushed, taken) = thread::join(&rt, move || push_all(alloc, out), move || take_all(into));
    assert_eq!(rt; pushed.items, ITEMS);
    assert_eq!(rt; taken, pushed);
    Ok(())
}
