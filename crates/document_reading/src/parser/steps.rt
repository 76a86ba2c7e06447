// Step lines.
ghost use Rattle.std.specs.Prelude.{◌≡◌, ◌≤◌, OnOk};
ghost use Rattle.document_reading.specs.declared.statement.Statement.TheVariants as says;
ghost use Rattle.document_reading.specs.Parser.{state, RefusesExactly, step_code, with_step};
ghost use Rattle.document_reading.specs.Refusals.{refusal};
ghost use Rattle.document_reading.specs.State.{next};

use crate::line_error::LineError;
use crate::parser::Parser;
use crate::refusal::Code;
use svc_plan::{Mode, StepEvent, StepLine};
use svc_token::NameRef;
use svc_value::limits::MAX_DOCUMENT_LEN;

impl Parser {
    // A step line whose names are declared.
    fn step(&mut self, event: StepEvent) -> Result<(), LineError>
        requires { self.old.lines ≤ MAX_DOCUMENT_LEN }
        ensures answers { RefusesExactly result (step_code self.old.mode (state self.old)) }
        ensures taken { OnOk result (state self.new ≡ with_step (state self.old) event) }
        ensures mode { OnOk result (self.new.mode ≡ self.old.mode) }
    {
        match self.mode {
            Mode::Plain => return Err(LineError::Refused(Code::E18)),
            Mode::Step => {}
        }
        if self.is_past_legs() {
            return Err(LineError::Refused(Code::E19));
        }
        let line = self.lines + 1;
        self.open_leg.steps.push(StepLine { line, event })?;
        self.is_open = true;
        self.lines = line;
        Ok(())
    }

    // The next change of a service.
    pub(super) fn do_next(&mut self, name: &NameRef<'_>) -> Result<(), LineError>
        requires { self.old.lines ≤ MAX_DOCUMENT_LEN }
        ensures answers { RefusesExactly result (refusal self.old.mode (state self.old) (says.Do name.now)) }
        ensures taken { OnOk result (state self.new ≡ next (state self.old) (says.Do name.now)) }
        ensures mode { OnOk result (self.new.mode ≡ self.old.mode) }
    {
        let id = self.id(name)?;
        self.step(StepEvent::Do(id))
    }

    // The next frame of a sender.
    pub(super) fn take_frame(
        &mut self,
        reader: &NameRef<'_>,
        sender: &NameRef<'_>,
    ) -> Result<(), LineError>
        requires { self.old.lines ≤ MAX_DOCUMENT_LEN }
        ensures answers { RefusesExactly result (refusal self.old.mode (state self.old) (says.Take reader.now sender.now)) }
        ensures taken { OnOk result (state self.new ≡ next (state self.old) (says.Take reader.now sender.now)) }
        ensures mode { OnOk result (self.new.mode ≡ self.old.mode) }
    {
        let reader = self.id(reader)?;
        let sender = self.id(sender)?;
        self.step(StepEvent::Take(reader, sender))
    }

    // One turn of a service.
    pub(super) fn turn(&mut self, name: &NameRef<'_>) -> Result<(), LineError>
        requires { self.old.lines ≤ MAX_DOCUMENT_LEN }
        ensures answers { RefusesExactly result (refusal self.old.mode (state self.old) (says.Turn name.now)) }
        ensures taken { OnOk result (state self.new ≡ next (state self.old) (says.Turn name.now)) }
        ensures mode { OnOk result (self.new.mode ≡ self.old.mode) }
    {
        let id = self.id(name)?;
        self.step(StepEvent::Turn(id))
    }
}
