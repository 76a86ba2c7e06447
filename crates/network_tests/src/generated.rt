// Documents of the generator, cut into legs with drawn events: whatever the services do and in what order, the values are those
// of the central evaluation.
use crate::comparing::compare_all;
use document_generator::make_document;
use std::alloc::Global;
use std::test::Fail;

// What is made: the services and the changes of the document, how many changes a leg has, how many events are drawn in each
// leg, and what the draws start from.
#[derive(Clone, Copy)]
struct Shape {
    services: u16,
    changes: u16,
    leg: usize,
    events: usize,
    start: u32,
}

// Draws numbers.
#[derive(Clone, Copy)]
struct Draws {
    number: usize,
}

impl Draws {
    // A number below `most`, or 0.
    fn below(&mut self, most: usize) -> usize {
        self.number = (self.number % 65537 * 75 + 74) % 65537;
        self.number.checked_rem(most).unwrap_or(0)
    }

    // One of these names.
    fn name<'a>(&mut self, names: &[&'a str]) -> &'a str {
        let place = self.below(names.len());
        names.get(place).copied().unwrap_or("")
    }
}

// The name that a line declares, if it declares one.
fn declared(line: &str) -> Option<&str> {
    let mut words = line.split(' ');
    match words.next() {
        Some("input" | "derived") => words.next(),
        _ => None,
    }
}

// A step line of services with these names.
fn step_line(alloc: Global, draws: &mut Draws, names: &[&str]) -> Result<String, Fail> {
    let (kind, reader) = (draws.below(6), draws.name(names));
    let line = match kind {
        0 => format!(in alloc; "do {reader}\n")?,
        1 | 2 => format!(in alloc; "turn {reader}\n")?,
        _ => {
            let sender = draws.name(names);
            format!(in alloc; "take {reader} from {sender}\n")?
        }
    };
    Ok(line)
}

// Ends a leg, after so many drawn events.
fn end_leg(
    alloc: Global,
    draws: &mut Draws,
    names: &[&str],
    events: usize,
    text: &mut String,
) -> Result<(), Fail> {
    for _ in 0..events {
        text.push_str(step_line(alloc, draws, names)?.as_str())?;
    }
    text.push_str("settle\n")?;
    Ok(())
}

// The document with its lines in legs, the last of which ends with the document.
fn in_legs(alloc: Global, document: &str, shape: Shape) -> Result<String, Fail> {
    let mut draws = Draws {
        number: shape.start as usize,
    };
    let mut names = Vec::new(alloc);
    let mut text = String::new(alloc);
    for (number, line) in document.lines().enumerate() {
        if line == "settle" {
            break;
        }
        if let Some(name) = declared(line) {
            names.push(name)?;
        }
        text.push_str(line)?;
        text.push_str("\n")?;
        if (number + 1).checked_rem(shape.leg) == Some(0) {
            end_leg(alloc, &mut draws, names.as_slice(), shape.events, &mut text)?;
        }
    }
    Ok(text)
}

// Compares the values of the document, and answers how many settled ones there are.
fn compared(alloc: Global, shape: Shape) -> Result<u64, Fail> {
    let Shape {
        services,
        changes,
        start,
        ..
    } = shape;
    if services < 2 || services > 64 || changes < services || changes > 1024 || start > 65536 {
        return Err("there is no such document".into());
    }
    let made = make_document(alloc, services, changes, start)?;
    let Ok(document) = String::from_utf8(made) else {
        return Err("the document is no text".into());
    };
    let text = in_legs(alloc, document.as_str(), shape)?;
    Ok(compare_all(alloc, text.as_str())?.0)
}

// The numbers of a shape in their order, and how many values settle: after each leg one for each service declared until then.
type Row = ([u16; 5], u64);

const ROWS: [Row; 8] = [
    ([2, 2, 2, 0, 0], 2),
    ([3, 5, 1, 9, 1], 12),
    ([6, 60, 6, 0, 7], 60),
    ([6, 60, 6, 40, 7], 60),
    ([8, 96, 3, 30, 100], 249),
    ([8, 96, 24, 300, 65535], 32),
    ([16, 160, 20, 400, 5], 128),
    ([64, 256, 64, 100, 11], 256),
];

#[test]
fn generated_documents_settle(rt: HostRuntime) -> Result<(), Fail> {
    for ([services, changes, leg, events, start], settled) in ROWS {
        let shape = Shape {
            services,
            changes,
            leg: usize::from(leg),
            events: usize::from(events),
            start: u32::from(start),
        };
        let count = compared(rt.alloc(), shape)?;
        assert_eq!(rt; count, settled, "from {start}");
    }
    Ok(())
}
