// Declarations.
ghost use Rattle.std.specs.Prelude.{◌≡◌, ◌<◌, ◌≤◌, length, None, IfOk, OnOk};
ghost use Rattle.svc_graph.specs.Accepting.{IsProper};
ghost use Rattle.document_reading.specs.declared.statement.Statement.TheVariants as says;
ghost use Rattle.document_reading.specs.Parser.{state, RefusesExactly, name_code, rank_code, with_service};
ghost use Rattle.document_reading.specs.Refusals.{refusal};
ghost use Rattle.document_reading.specs.Sound.{IsSound, IsProperBody};
ghost use Rattle.document_reading.specs.State.{next};

use crate::line_error::LineError;
use crate::parser::Parser;
use crate::refusal::Code;
use crate::statement::Body;
use svc_graph::{Change, Definition, Kind, MAX_SERVICES};
use svc_plan::ServiceLine;
use svc_token::NameRef;
use svc_value::limits::MAX_RANK;
use svc_value::{Name, Rank, ServiceId, Value, ValueType};

// The rank of a derived service.
fn rank_of(rank: u64) -> Result<Rank, LineError>
    ensures rank { IfOk result (λ given. given ≡ rank) }
    ensures answers { RefusesExactly result (rank_code rank) }
{
    if rank < 1 || rank > MAX_RANK {
        return Err(LineError::Refused(Code::E07));
    }
    Ok(Rank(rank as u16))
}

impl Parser {
    // Whether a service of this name can be declared.
    fn name(&self, name: &NameRef<'_>) -> Result<(), LineError>
        ensures { RefusesExactly result (name_code self.now.book name.now) }
    {
        if self.book.find(name.as_str()).is_some() {
            return Err(LineError::Refused(Code::E05));
        }
        if self.book.len() >= MAX_SERVICES {
            return Err(LineError::Refused(Code::E06));
        }
        Ok(())
    }

    // Declares a service, with its line in the open leg, and answers its number.
    fn declare(
        &mut self,
        name: &NameRef<'_>,
        rank: Rank,
        ty: ValueType,
    ) -> Result<ServiceId, LineError>
        requires rank { rank ≤ MAX_RANK }
        requires new { name_code self.old.book name.now ≡ None }
        ensures number { IfOk result (λ id. id ≡ length self.old.book) }
        ensures answers { RefusesExactly result None }
        ensures taken { OnOk result (state self.new ≡ with_service (state self.old) (record { name = name.now; rank = rank; ty = ty })) }
        ensures mode { OnOk result (self.new.mode ≡ self.old.mode) }
    {
        let id = self.book.add_service(name.as_str(), Kind { rank, ty })?;
        let name = Name::from_slice(self.alloc, name.as_str().as_bytes())?;
        self.open_leg.services.push(ServiceLine { name, rank, ty })?;
        Ok(id)
    }

    // An input with its first value.
    pub(super) fn input(
        &mut self,
        name: &NameRef<'_>,
        ty: ValueType,
        value: Value,
    ) -> Result<(), LineError>
        requires sound { IsSound (state self.old) }
        requires proper { IsProper value }
        ensures answers { RefusesExactly result (refusal self.old.mode (state self.old) (says.Input name.now ty value)) }
        ensures taken { OnOk result (state self.new ≡ next (state self.old) (says.Input name.now ty value)) }
        ensures mode { OnOk result (self.new.mode ≡ self.old.mode) }
    {
        self.name(name)?;
        let id = self.declare(name, Rank(0), ty)?;
        self.make(id, Change::Birth(Definition::Input(value)))
    }

    // A derived service with its first formula.
    pub(super) fn derived(
        &mut self,
        name: &NameRef<'_>,
        ty: ValueType,
        rank: u64,
        body: Body<'_>,
    ) -> Result<(), LineError>
        requires sound { IsSound (state self.old) }
        requires proper { IsProperBody body }
        ensures answers { RefusesExactly result (refusal self.old.mode (state self.old) (says.Derived name.now ty rank body.entry)) }
        ensures taken { OnOk result (state self.new ≡ next (state self.old) (says.Derived name.now ty rank body.entry)) }
        ensures mode { OnOk result (self.new.mode ≡ self.old.mode) }
    {
        self.name(name)?;
        let rank = rank_of(rank)?;
        match body {
            Body::TooLarge => Err(LineError::Refused(Code::E12)),
            Body::Formula(formula) => {
                let formula = self.formula(formula)?;
                let id = self.declare(name, rank, ty)?;
                self.make(id, Change::Birth(Definition::Derived(formula)))
            }
        }
    }
}
