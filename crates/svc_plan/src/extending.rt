// What a leg adds to a book.
ghost use Rattle.std.specs.Prelude.{◌≡◌, [], ◌∷◌, List, ℕ, length, take, OnOk, OnErr};
ghost use Rattle.svc_graph.specs.Book.{IsBook};
ghost use Rattle.svc_graph.specs.Rewound.{clocks_of, rewound_rows};
ghost use Rattle.svc_plan.specs.Rows.{with_services, with_changes, rows_after, AreServicesAfter, IsServiceAfter, AreAcceptedAfter, IsLegAfter};
ghost use Rattle.svc_plan.specs.Extending.{AreWithin};

use crate::plan::{Leg, PlanChange, ServiceLine};
use std::alloc::Global;
use svc_graph::{Book, Kind, MAX_SERVICES};
use svc_token::NameRef;
use svc_value::{Clock, OutOfMemory, ServiceId};

/// Declares the services of `leg`, which the book can take, in `book`, and then applies a copy of each of its changes. The memory
/// comes from the allocators that the changes and the book have, and the first argument has no use. After `OutOfMemory` the book
/// is as it was.
pub fn extend(_alloc: Global, book: &mut Book, leg: &Leg) -> Result<(), OutOfMemory>
    requires { IsLegAfter book.old leg.now }
    ensures ok { OnOk result (book.new ≡ rows_after book.old leg.now) }
    ensures err { OnErr result (book.new ≡ book.old) }
{
    let count = book.len();
    let clocks = clocks_of(book);
    if let Err(error) = add(book, leg) {
        book.rewind(&clocks[..count]);
        return Err(error);
    }
    Ok(())
}

// The clock of each service, and 0 behind them.
fn clocks_of(book: &Book) -> [Clock; MAX_SERVICES]
    ensures len { length result ≡ MAX_SERVICES }
    ensures clocks { take (length book.now) result ≡ clocks_of book.now }
    ensures book { IsBook book.now }
{
    let mut clocks = [Clock(0); MAX_SERVICES];
    for number in 0..book.len() {
        clocks[number] = book.clock(ServiceId(number as u16));
    }
    clocks
}

// Adds what the leg says. After `OutOfMemory` the book has some of it.
fn add(book: &mut Book, leg: &Leg) -> Result<(), OutOfMemory>
    requires { IsLegAfter book.old leg.now }
    ensures ok { OnOk result (book.new ≡ rows_after book.old leg.now) }
    ensures older { (clocks : List ℕ) → AreWithin clocks book.old → rewound_rows book.new clocks ≡ rewound_rows book.old clocks }
{
    declare_all(book, leg.services.as_slice())?;
    apply_all(book, leg.changes.as_slice())
}

// Declares services, one after the other.
fn declare_all(book: &mut Book, lines: &[ServiceLine]) -> Result<(), OutOfMemory>
    requires { AreServicesAfter book.old lines.now }
    ensures ok { OnOk result (book.new ≡ with_services book.old lines.now) }
    ensures older { (clocks : List ℕ) → AreWithin clocks book.old → (rewound_rows book.new clocks ≡ rewound_rows book.old clocks) × AreWithin clocks book.new }
{
    for line in lines {
        declare(book, line)?;
    }
    Ok(())
}

// Makes changes, one after the other.
fn apply_all(book: &mut Book, changes: &[PlanChange]) -> Result<(), OutOfMemory>
    requires { AreAcceptedAfter book.old changes.now }
    ensures ok { OnOk result (book.new ≡ with_changes book.old changes.now) }
    ensures older { (clocks : List ℕ) → AreWithin clocks book.old → (rewound_rows book.new clocks ≡ rewound_rows book.old clocks) × AreWithin clocks book.new }
{
    for next in changes {
        book.apply(next.id, next.change.copy()?)?;
    }
    Ok(())
}

// Declares a service.
fn declare(book: &mut Book, line: &ServiceLine) -> Result<(), OutOfMemory>
    requires { IsServiceAfter book.old line.now }
    ensures ok { OnOk result (book.new ≡ with_services book.old (line.now ∷ [])) }
    ensures err { OnErr result (book.new ≡ book.old) }
{
    let name = NameRef::new(line.name.as_slice());
    let kind = Kind {
        rank: line.rank,
        ty: line.ty,
    };
    book.add_service(name.as_str(), kind)?;
    Ok(())
}
