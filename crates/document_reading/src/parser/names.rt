// The services that names name.
ghost use Rattle.std.specs.Prelude.{◌≡◌, ◌++◌, map, All, IfOk};
ghost use Rattle.std.specs.List.{list_any};
ghost use Rattle.svc_token.specs.Word.{IsName};
ghost use Rattle.document_reading.specs.Parser.{RefusesExactly, code_where};
ghost use Rattle.document_reading.specs.Refusals.{is_unknown};
ghost use Rattle.document_reading.specs.Sound.{IsNamedFormula};
ghost use Rattle.document_reading.specs.State.{service_named, formula_of};

use crate::line_error::LineError;
use crate::parser::Parser;
use crate::refusal::Code;
use crate::statement::NamedFormula;
use svc_graph::Formula;
use svc_token::NameRef;
use svc_value::{Ids, Name, ServiceId};

impl Parser {
    // The service with this name.
    pub(super) fn id(&self, name: &NameRef<'_>) -> Result<ServiceId, LineError>
        ensures number { IfOk result (λ id. id ≡ service_named self.now.book name.now) }
        ensures answers { RefusesExactly result (code_where (is_unknown self.now.book name.now) Code.E08) }
    {
        match self.book.find(name.as_str()) {
            Some(id) => Ok(id),
            None => Err(LineError::Refused(Code::E08)),
        }
    }

    // The services with these names.
    pub(super) fn ids(&self, names: &[Name]) -> Result<Ids, LineError>
        requires { All IsName names.now }
        ensures numbers { IfOk result (λ ids. ids ≡ map (service_named self.now.book) names.now) }
        ensures answers { RefusesExactly result (code_where (list_any (is_unknown self.now.book) names.now) Code.E08) }
    {
        let mut ids = Vec::with_capacity(self.alloc, names.len())?;
        for name in names {
            let id = self.id(&NameRef::new(name.as_slice()))?;
            ids.push_reserved(id);
        }
        Ok(Ids::from_vec(ids))
    }

    // The services with these names, which are lent.
    pub(super) fn members(&self, names: &[NameRef<'_>]) -> Result<Ids, LineError>
        ensures numbers { IfOk result (λ ids. ids ≡ map (service_named self.now.book) names.now) }
        ensures answers { RefusesExactly result (code_where (list_any (is_unknown self.now.book) names.now) Code.E08) }
    {
        let mut ids = Vec::with_capacity(self.alloc, names.len())?;
        for name in names {
            let id = self.id(name)?;
            ids.push_reserved(id);
        }
        Ok(Ids::from_vec(ids))
    }

    // The formula over the services with its names.
    pub(super) fn formula(&self, formula: NamedFormula<'_>) -> Result<Formula, LineError>
        requires { IsNamedFormula formula }
        ensures formula { IfOk result (λ made. made ≡ formula_of self.now.book formula.entry) }
        ensures answers { RefusesExactly result (code_where (list_any (is_unknown self.now.book) (formula.entry.names ++ formula.entry.members)) Code.E08) }
    {
        let fixed = self.ids(formula.names.as_slice())?;
        let members = self.members(formula.members.as_slice())?;
        Ok(Formula {
            expr: formula.expr,
            fixed,
            members,
        })
    }
}
