// The values of a network are those of the central evaluation: each settled one that of the present definitions, and each
// computed one that of the definitions at the clocks of its stamps.
ghost use Rattle.std.specs.Prelude.{◌≡◌, ◌<◌, length, true};
ghost use Rattle.svc_graph.specs.Central.{AreBorn};

use crate::logs::{DIAMOND, NEW_DEFINITION};
use crate::notes::FLOOR;
use crate::playing::{Observer, Step, play};
use central_eval::{central, central_at};
use node_core::{Computation, Entry};
use settle_core::Network;
use std::alloc::Global;
use std::test::Fail;
use svc_graph::Book;
use svc_value::{OutOfMemory, ServiceId, Value, print_value};

// How many values were compared.
#[derive(Drop)]
struct Comparer {
    alloc: Global,
    settled: u64,
    computed: u64,
}

impl Observer for Comparer {
    fn settled(&mut self, network: &Network, _: &[Step]) -> Result<(), Fail> {
        self.settled = self
            .settled
            .saturating_add(compare_settled(self.alloc, network)?);
        self.computed = self
            .computed
            .saturating_add(compare_computed(self.alloc, network)?);
        Ok(())
    }
}

fn are_equal(alloc: Global, value: &Value, other: &Value) -> Result<bool, OutOfMemory> {
    let (mut text, mut other_text) = (Vec::new(alloc), Vec::new(alloc));
    print_value(value, &mut text)?;
    print_value(other, &mut other_text)?;
    Ok(text == other_text)
}

// Whether every service has a definition.
fn are_born(book: &Book) -> bool
    ensures { result ≡ true → AreBorn book.now }
{
    for number in 0..book.len() {
        if book.clock(ServiceId(number as u16)).0 == 0 {
            return false;
        }
    }
    true
}

// Compares the settled values, and answers how many there are.
fn compare_settled(alloc: Global, network: &Network) -> Result<u64, Fail> {
    let book = network.book();
    if !network.quiet() || !are_born(book) {
        return Err("the network is not settled".into());
    }
    let (values, expected) = (network.values()?, central(alloc, book)?);
    if values.len() != expected.len() {
        return Err("there are more values, or fewer".into());
    }
    for (value, other) in values.iter().zip(expected.iter()) {
        if !are_equal(alloc, value, other)? {
            return Err("a settled value is another".into());
        }
    }
    Ok(values.len() as u64)
}

// Compares a computation.
fn compare(alloc: Global, book: &Book, id: ServiceId, computation: &Computation) -> Result<(), Fail>
    requires { id < length book.now }
{
    match central_at(alloc, book, id, &computation.stamps)? {
        None => Err("the stamps are no clocks of what the service rests on".into()),
        Some(value) => {
            if !are_equal(alloc, &value, &computation.value)? {
                return Err("a computed value is another".into());
            }
            Ok(())
        }
    }
}

// Compares the computations of a log, and answers how many there are.
fn compare_log(alloc: Global, book: &Book, id: ServiceId, log: &[Entry]) -> Result<u64, Fail>
    requires { id < length book.now }
{
    let mut count = 0u64;
    for entry in log {
        if let Entry::Computed(computation) = entry {
            compare(alloc, book, id, computation)?;
            count = count.saturating_add(1);
        }
    }
    Ok(count)
}

fn compare_computed(alloc: Global, network: &Network) -> Result<u64, Fail> {
    let book = network.book();
    let mut count = 0u64;
    for number in 0..book.len() {
        let id = ServiceId(number as u16);
        count = count.saturating_add(compare_log(alloc, book, id, network.node(id).log())?);
    }
    Ok(count)
}

/// Compares the values of a document's legs, and answers how many settled ones and how many computed ones there are.
pub(crate) fn compare_all(alloc: Global, document: &str) -> Result<(u64, u64), Fail> {
    let mut comparer = Comparer {
        alloc,
        settled: 0,
        computed: 0,
    };
    play(alloc, document, &mut comparer)?;
    Ok((comparer.settled, comparer.computed))
}

#[test]
fn rows_compute_what_their_stamps_name(rt: HostRuntime) -> Result<(), Fail> {
    for (name, document, expected) in [
        ("diamond", DIAMOND, (8, 8)),
        ("floor", FLOOR, (8, 9)),
        ("new definition", NEW_DEFINITION, (8, 5)),
    ] {
        let counts = compare_all(rt.alloc(), document)?;
        assert_eq!(rt; counts, expected, "in {name}");
    }
    Ok(())
}
