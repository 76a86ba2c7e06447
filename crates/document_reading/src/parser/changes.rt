// Changes of services that are declared.
ghost use Rattle.std.specs.Prelude.{◌≡◌, ◌≤◌, ◌+◌, length, OnOk};
ghost use Rattle.svc_graph.specs.Accepting.{IsChangeOf, IsProper};
ghost use Rattle.document_reading.specs.declared.statement.Statement.TheVariants as says;
ghost use Rattle.document_reading.specs.Parser.{state, RefusesExactly, change_code, full_code, with_change};
ghost use Rattle.document_reading.specs.Refusals.{refusal};
ghost use Rattle.document_reading.specs.Sound.{IsSound, IsProperBody};
ghost use Rattle.document_reading.specs.State.{next};

use crate::line_error::LineError;
use crate::parser::{MAX_CHANGES, Parser};
use crate::refusal::Code;
use crate::statement::Body;
use svc_graph::Change;
use svc_plan::PlanChange;
use svc_token::NameRef;
use svc_value::limits::MAX_DOCUMENT_LEN;
use svc_value::{ServiceId, Value};

impl Parser {
    // Whether there is no room in the leg, or for a leg more.
    fn full(&self) -> Result<(), LineError>
        ensures { RefusesExactly result (full_code (length self.now.open_leg.changes) (self.now.before + length self.now.ended)) }
    {
        if self.open_leg.changes.len() >= MAX_CHANGES {
            return Err(LineError::Refused(Code::E17));
        }
        if self.is_past_legs() {
            return Err(LineError::Refused(Code::E19));
        }
        Ok(())
    }

    // A change. A copy of it goes into the book.
    pub(super) fn make(&mut self, id: ServiceId, change: Change) -> Result<(), LineError>
        requires form { IsChangeOf self.old.book id change }
        requires lines { self.old.lines ≤ MAX_DOCUMENT_LEN }
        ensures answers { RefusesExactly result (change_code (state self.old) id change) }
        ensures taken { OnOk result (state self.new ≡ with_change (state self.old) id change) }
        ensures mode { OnOk result (self.new.mode ≡ self.old.mode) }
    {
        let copy = change.copy()?;
        self.book.accept(id, copy)?;
        self.full()?;
        self.open_leg.changes.push(PlanChange { id, change })?;
        self.is_open = true;
        self.lines += 1;
        Ok(())
    }

    // A new value of an input.
    pub(super) fn set(&mut self, name: &NameRef<'_>, value: Value) -> Result<(), LineError>
        requires sound { IsSound (state self.old) }
        requires proper { IsProper value }
        ensures answers { RefusesExactly result (refusal self.old.mode (state self.old) (says.Set name.now value)) }
        ensures taken { OnOk result (state self.new ≡ next (state self.old) (says.Set name.now value)) }
        ensures mode { OnOk result (self.new.mode ≡ self.old.mode) }
    {
        let id = self.id(name)?;
        self.make(id, Change::Set(value))
    }

    // A member more.
    pub(super) fn add(
        &mut self,
        reader: &NameRef<'_>,
        member: &NameRef<'_>,
    ) -> Result<(), LineError>
        requires { IsSound (state self.old) }
        ensures answers { RefusesExactly result (refusal self.old.mode (state self.old) (says.Add reader.now member.now)) }
        ensures taken { OnOk result (state self.new ≡ next (state self.old) (says.Add reader.now member.now)) }
        ensures mode { OnOk result (self.new.mode ≡ self.old.mode) }
    {
        let reader = self.id(reader)?;
        let member = self.id(member)?;
        self.make(reader, Change::Add(member))
    }

    // A member less.
    pub(super) fn drop_member(
        &mut self,
        reader: &NameRef<'_>,
        member: &NameRef<'_>,
    ) -> Result<(), LineError>
        requires { IsSound (state self.old) }
        ensures answers { RefusesExactly result (refusal self.old.mode (state self.old) (says.Drop reader.now member.now)) }
        ensures taken { OnOk result (state self.new ≡ next (state self.old) (says.Drop reader.now member.now)) }
        ensures mode { OnOk result (self.new.mode ≡ self.old.mode) }
    {
        let reader = self.id(reader)?;
        let member = self.id(member)?;
        self.make(reader, Change::Drop(member))
    }

    // Another formula.
    pub(super) fn define(&mut self, name: &NameRef<'_>, body: Body<'_>) -> Result<(), LineError>
        requires sound { IsSound (state self.old) }
        requires proper { IsProperBody body }
        ensures answers { RefusesExactly result (refusal self.old.mode (state self.old) (says.Define name.now body.entry)) }
        ensures taken { OnOk result (state self.new ≡ next (state self.old) (says.Define name.now body.entry)) }
        ensures mode { OnOk result (self.new.mode ≡ self.old.mode) }
    {
        match body {
            Body::TooLarge => Err(LineError::Refused(Code::E12)),
            Body::Formula(formula) => {
                let id = self.id(name)?;
                let formula = self.formula(formula)?;
                self.make(id, Change::Define(formula))
            }
        }
    }
}
