// Generated documents, cut into legs, which workers run while a gate delays their turns: the values are those of the drain.
use crate::legs::{drain_document, run_document};
use document_generator::make_document;
use node_core::Node;
use node_threads::Gate;
use std::alloc::Global;
use std::test::Fail;
use std::thread;
use std::thread::Threads;

// A gate that lets other threads go first before turns, each time a drawn number of times: mostly none, at times some, and seldom
// many.
#[derive(Clone, Copy)]
struct Delays {
    start: u32,
}

impl Delays {
    fn delay(&self, service: u16, number: u32) -> u32 {
        let mut drawn = self
            .start
            .wrapping_add(u32::from(service).wrapping_mul(2_654_435_761));
        drawn = drawn.wrapping_add(number.wrapping_mul(40_503));
        drawn = (drawn ^ (drawn >> 15)).wrapping_mul(2_246_822_519);
        drawn = drawn ^ (drawn >> 13);
        match drawn % 32 {
            0 => 40,
            1..=7 => drawn % 5,
            _ => 0,
        }
    }
}

impl Gate for Delays {
    fn at_turn(&self, service: u16, number: u32, _node: &Node) {
        for _ in 0..self.delay(service, number) {
            thread::yield_now();
        }
    }
}

// The document with its lines in legs of so many, the last of which ends with the document.
fn in_legs(alloc: Global, document: &str, lines: usize) -> Result<String, Fail> {
    let mut text = String::new(alloc);
    for (number, line) in document.lines().enumerate() {
        if line == "settle" {
            break;
        }
        text.push_str(line)?;
        text.push_str("\n")?;
        if (number + 1).checked_rem(lines) == Some(0) {
            text.push_str("settle\n")?;
        }
    }
    Ok(text)
}

// How many legs the document has.
fn count_legs(document: &str) -> usize {
    document.lines().filter(|line| *line == "settle").count()
}

// Runs the legs of a document, and answers how many there are; an error where a value is not that of the drain.
fn compared<R: Threads + Sync>(
    rt: &R,
    alloc: Global,
    document: &str,
    gate: &Delays,
) -> Result<usize, Fail> {
    let run = run_document(rt, alloc, document, gate)?;
    let drained = drain_document(alloc, document)?;
    if run != drained {
        return Err("a value is another than that of the drain".into());
    }
    Ok(count_legs(document))
}

// The generated document in legs.
fn document(alloc: Global, row: Row, start: u32) -> Result<String, Fail> {
    let Row {
        services,
        changes,
        ..
    } = row;
    if services < 2 || services > 64 || changes < services || changes > 1024 || start > 65536 {
        return Err("there is no such document".into());
    }
    let made = make_document(alloc, services, changes, start)?;
    match String::from_utf8(made) {
        Ok(document) => in_legs(alloc, document.as_str(), row.lines),
        Err(_) => Err("the document is no text".into()),
    }
}

// So many documents of so many services and changes, with so many lines in a leg; what the draws of the first start from.
#[derive(Clone, Copy)]
struct Row {
    documents: u32,
    services: u16,
    changes: u16,
    lines: usize,
    start: u32,
}

// Runs the documents of a row, and answers how many legs they have.
fn legs_of_row<R: Threads + Sync>(rt: &R, alloc: Global, row: Row) -> Result<usize, Fail> {
    let mut legs = 0usize;
    for number in 0..row.documents {
        let start = row.start.wrapping_add(number);
        let text = document(alloc, row, start)?;
        legs = legs.saturating_add(compared(rt, alloc, text.as_str(), &Delays { start })?);
    }
    Ok(legs)
}

// Documents, services, changes, lines in a leg, and what the draws start from; and how many legs there are.
const ROWS: [([u32; 5], usize); 6] = [
    ([40, 2, 20, 2, 1], 400),
    ([30, 3, 60, 6, 100], 300),
    ([20, 6, 90, 9, 300], 200),
    ([7, 12, 120, 12, 500], 70),
    ([2, 32, 320, 32, 700], 20),
    ([1, 64, 640, 64, 65535], 10),
];

#[test]
fn a_thousand_legs_settle(rt: HostRuntime) -> Result<(), Fail> {
    for ([documents, services, changes, lines, start], expected) in ROWS {
        let row = Row {
            documents,
            services: services as u16,
            changes: changes as u16,
            lines: lines as usize,
            start,
        };
        let legs = legs_of_row(&rt, rt.alloc(), row)?;
        assert_eq!(rt; legs, expected, "of {services} services");
    }
    Ok(())
}
