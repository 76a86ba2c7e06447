// What the lines so far leave for the next one.
ghost use Rattle.std.specs.Prelude.{◌≡◌, ◌≤◌, ◌<◌, ◌+◌, length, nat_le, IfOk, OnOk};
ghost use Rattle.document_reading.specs.declared.statement.Statement.TheVariants as says;
ghost use Rattle.document_reading.specs.Document.{RefusesLine};
ghost use Rattle.document_reading.specs.Parser.{state, RefusesExactly, TakesLine, RefusedAt};
ghost use Rattle.document_reading.specs.Refusals.{refusal};
ghost use Rattle.document_reading.specs.Sound.{IsSound, IsProperStatement};
ghost use Rattle.document_reading.specs.State.{start, next, empty_leg, legs_in};

mod changes;
mod declarations;
mod names;
mod steps;

use crate::line::read_line;
use crate::line_error::LineError;
use crate::refusal::Code;
use crate::statement::Statement;
use std::alloc::Global;
use std::mem;
use svc_graph::Book;
use svc_plan::{Leg, Mode, PlanChanges, PlanLegs, ServiceLines, StepLines};
use svc_token::Token;
use svc_value::OutOfMemory;
use svc_value::limits::MAX_DOCUMENT_LEN;
pub use svc_value::limits::{MAX_CHANGES, MAX_LEGS};

/// What the lines so far leave for the next one: how many there were, the services, how many legs had ended before the first
/// line, the legs that ended since, and what the open one says.
#[derive(Drop)]
pub(crate) struct Parser {
    alloc: Global,
    mode: Mode,
    book: Book,
    lines: u32,
    before: u32,
    ended: PlanLegs,
    open_leg: Leg,
    is_open: bool,
}

// A leg without lines.
fn leg(alloc: Global) -> Leg
    ensures { result ≡ empty_leg }
{
    Leg {
        services: ServiceLines::new(alloc),
        changes: PlanChanges::new(alloc),
        steps: StepLines::new(alloc),
    }
}

impl Parser {
    /// Before the first line, with this book, after so many legs.
    pub(crate) fn new(alloc: Global, mode: Mode, book: Book, before: u32) -> Parser
        ensures start { state result ≡ start book before }
        ensures mode { result.mode ≡ mode }
    {
        Parser {
            alloc,
            mode,
            book,
            lines: 0,
            before,
            ended: PlanLegs::new(alloc),
            open_leg: leg(alloc),
            is_open: false,
        }
    }

    // Whether as many legs have ended as may.
    fn is_past_legs(&self) -> bool
        ensures { result ≡ nat_le MAX_LEGS (self.now.before + length self.now.ended) }
    {
        (self.before as usize).saturating_add(self.ended.len()) >= MAX_LEGS
    }

    // A line that says nothing.
    fn silence(&mut self)
        requires { self.old.lines ≤ MAX_DOCUMENT_LEN }
        ensures taken { state self.new ≡ next (state self.old) says.Silence }
        ensures mode { self.new.mode ≡ self.old.mode }
    {
        self.lines += 1;
    }

    // The end of a leg.
    fn settle(&mut self) -> Result<(), LineError>
        requires { self.old.lines ≤ MAX_DOCUMENT_LEN }
        ensures answers { RefusesExactly result (refusal self.old.mode (state self.old) says.Settle) }
        ensures taken { OnOk result (state self.new ≡ next (state self.old) says.Settle) }
        ensures mode { OnOk result (self.new.mode ≡ self.old.mode) }
    {
        if self.is_past_legs() {
            return Err(LineError::Refused(Code::E19));
        }
        let ended = mem::replace(&mut self.open_leg, leg(self.alloc));
        self.ended.push(ended)?;
        self.is_open = false;
        self.lines += 1;
        Ok(())
    }

    /// Takes what the next line says; `Refused` exactly where it is refused after those before it, with the lowest-numbered code.
    pub(crate) fn take(&mut self, statement: Statement<'_>) -> Result<(), LineError>
        requires sound { IsSound (state self.old) }
        requires proper { IsProperStatement statement }
        ensures answers { RefusesExactly result (refusal self.old.mode (state self.old) statement.entry) }
        ensures taken { OnOk result (state self.new ≡ next (state self.old) statement.entry) }
        ensures mode { OnOk result (self.new.mode ≡ self.old.mode) }
    {
        match statement {
            Statement::Silence => {
                self.silence();
                Ok(())
            }
            Statement::Input(name, ty, value) => self.input(&name, ty, value),
            Statement::Derived(name, ty, rank, body) => self.derived(&name, ty, rank, body),
            Statement::Set(name, value) => self.set(&name, value),
            Statement::Add(reader, member) => self.add(&reader, &member),
            Statement::Drop(reader, member) => self.drop_member(&reader, &member),
            Statement::Define(name, body) => self.define(&name, body),
            Statement::Settle => self.settle(),
            Statement::Do(name) => self.do_next(&name),
            Statement::Take(reader, sender) => self.take_frame(&reader, &sender),
            Statement::Turn(name) => self.turn(&name),
        }
    }

    /// Takes the next line; `Refused` exactly where it is not accepted, with the lowest-numbered code. `tokens` is room for its tokens.
    pub(crate) fn take_line<'a>(
        &mut self,
        line: &'a [u8],
        tokens: &mut Vec<Token<'a>>,
    ) -> Result<(), LineError>
        requires { IsSound (state self.old) }
        ensures taken { OnOk result (TakesLine self.old.mode (state self.old) line.now (state self.new)) }
        ensures mode { OnOk result (self.new.mode ≡ self.old.mode) }
        ensures refused { RefusedAt result (RefusesLine self.old.mode (state self.old) line.now) }
    {
        match read_line(self.alloc, line, tokens) {
            Ok(statement) => self.take(statement),
            Err(stop) => Err(stop),
        }
    }

    /// The legs of the lines so far; where anything was said after the last settle, the open leg is the last.
    pub(crate) fn into_legs(self) -> Result<PlanLegs, OutOfMemory>
        ensures { IfOk result (λ legs. legs ≡ legs_in (state self)) }
    {
        let mut legs = self.ended;
        if self.is_open {
            legs.push(self.open_leg)?;
        }
        Ok(legs)
    }
}
