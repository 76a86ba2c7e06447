// The names, ranks, types and histories of all services.
ghost use Rattle.std.specs.Prelude.{◌≡◌, ◌≤◌, ◌<◌, ◌++◌, ◌∷◌, ◌↔◌, ◌≢◌, None, Some, [], length, position, IsSome, IsNone, IsErrOf, IfOk, IfErr, OnOk, OnErr};
ghost use Rattle.std.specs.Str.{bytes_eq};
ghost use Rattle.svc_graph.specs.Columns.{bytes_of};

mod order;
mod reach;
mod rewinding;

use crate::checks::check;
use crate::{Change, ChangeError, DeclareError, History, Kind, Roster};
use indexmap::IndexSet;
use std::alloc::Global;
use std::marker::Model;
pub use svc_value::limits::MAX_SERVICES;
use svc_value::limits::{MAX_CLOCK, MAX_RANK};
use svc_value::{Clock, OutOfMemory, Rank, ServiceId, ValueType};

/// The services of a network: the name, the rank, the type and the accepted definitions of each. Contracts see one row for
/// each service, in the order of declaration.
#[derive(Debug, Drop)]
pub struct Book {
    alloc: Global,
    names: IndexSet<String>,
    kinds: Vec<Kind>,
    histories: Vec<History>,
}

impl Model for Book {
    ghost use Rattle.std.specs.Prelude.{List};
    ghost use Rattle.svc_graph.specs.History.{Row};

    ghost Value = { List Row };

    ghost use Rattle.svc_expr.specs.contracts.expr.Expr as e;
    ghost use Rattle.std.specs.Coded.{codes};

    ghost coded = { Prim.hlevel (codes, e.the_row.coded) };

    ghost use Rattle.svc_graph.specs.Columns.{bytes_of, rows_of, AreColumns};

    ghost view = { λ b. rows_of (bytes_of b.names.keys) b.kinds.items b.histories.items };

    ghost invariant = { λ b. AreColumns (bytes_of b.names.keys) b.kinds.items b.histories.items };
}

// The place of a service among all.
fn place(id: ServiceId) -> usize
    ensures { result ≡ id }
{
    usize::from(id.0)
}

// Inserts a name that is not there yet.
fn insert(alloc: Global, names: &mut IndexSet<String>, name: &str) -> Result<(), OutOfMemory>
    requires { IsNone (position (bytes_eq name.now) (bytes_of names.old.keys)) }
    ensures ok { OnOk result (bytes_of names.new.keys ≡ bytes_of names.old.keys ++ name.now ∷ []) }
    ensures err { OnErr result (names.new.keys ≡ names.old.keys) }
{
    names.insert(String::from_str(alloc, name)?)?;
    Ok(())
}

impl Book {
    ghost use Rattle.svc_graph.specs.Accepting.{IsChangeOf};
    ghost use Rattle.svc_graph.specs.Book.{IsBook};
    ghost use Rattle.svc_graph.specs.Refusals.{AcceptsChange, refusal_of};
    ghost use Rattle.svc_graph.specs.History.{rows_after_change, declared_row, history_of, kind_of, find_service, roster_of, row_at};

    /// The book without services, which takes its memory from `alloc`.
    pub fn new(alloc: Global) -> Book
        ensures { result ≡ [] }
    {
        Book {
            alloc,
            names: IndexSet::new(alloc),
            kinds: Vec::new(alloc),
            histories: Vec::new(alloc),
        }
    }

    /// Declares a service of this name, rank (0 for an input, else 1 to 1000) and type, without a definition, and answers its
    /// number. `Taken` exactly where the name is declared, else `Full` exactly where 64 services are, and `OutOfMemory` for want
    /// of memory; an error leaves the book as it was.
    pub fn declare(
        &mut self,
        name: &str,
        rank: Rank,
        ty: ValueType,
    ) -> Result<ServiceId, DeclareError>
        requires { rank ≤ MAX_RANK }
        ensures number { IfOk result (λ id. id ≡ length self.old) }
        ensures ok { OnOk result (self.new ≡ self.old ++ declared_row name.now rank ty ∷ []) }

        // The name is tested first.
        ensures taken { IsErrOf result DeclareError.Taken ↔ IsSome (find_service self.old name.now) }
        ensures full { IsErrOf result DeclareError.Full ↔ (IsNone (find_service self.old name.now) × (MAX_SERVICES ≤ length self.old)) }
        ensures err { OnErr result (self.new ≡ self.old) }
    {
        if self.find(name).is_some() {
            return Err(DeclareError::Taken);
        }
        if self.len() >= MAX_SERVICES {
            return Err(DeclareError::Full);
        }
        Ok(self.add_service(name, Kind { rank, ty })?)
    }

    /// Declares a service as `declare` does, where it is known that this name is not declared and that there is room. No test is
    /// made; `OutOfMemory` leaves the book as it was.
    pub fn add_service(&mut self, name: &str, kind: Kind) -> Result<ServiceId, OutOfMemory>
        requires new { IsNone (find_service self.old name.now) }
        requires room { length self.old < MAX_SERVICES }
        requires rank { kind.rank ≤ MAX_RANK }
        ensures number { IfOk result (λ id. id ≡ length self.old) }
        ensures ok { OnOk result (self.new ≡ self.old ++ declared_row name.now kind.rank kind.ty ∷ []) }
        ensures err { OnErr result (self.new ≡ self.old) }
    {
        let number = self.kinds.len();
        self.kinds.reserve(1)?;
        self.histories.reserve(1)?;
        insert(self.alloc, &mut self.names, name)?;
        self.kinds.push_reserved(kind);
        self.histories.push_reserved(History::new(self.alloc));
        Ok(ServiceId(number as u16))
    }

    /// Accepts a change of the service `id`, whose history then has one definition more: a birth brings its own, and any other
    /// change what it makes of the last one. The error is that of the first test of the change that holds, as `ChangeError` lists
    /// them, or `OutOfMemory` in place of any answer but `Unknown` and `RankNotLower`; it leaves the book as it was, and the change
    /// is dropped.
    pub fn accept(&mut self, id: ServiceId, change: Change) -> Result<(), ChangeError>
        requires { IsChangeOf self.old id change }
        ensures ok { OnOk result (self.new ≡ rows_after_change self.old id change) }
        ensures passes { OnOk result (refusal_of self.old id change ≡ None) }
        ensures refused { IfErr result (λ e. e ≢ ChangeError.OutOfMemory → refusal_of self.old id change ≡ Some e) }
        ensures err { OnErr result (self.new ≡ self.old) }
    {
        self.test(id, &change)?;
        Ok(self.apply(id, change)?)
    }

    // Makes all tests of a change.
    fn test(&self, id: ServiceId, change: &Change) -> Result<(), ChangeError>
        requires { IsChangeOf self.now id change.now }
        ensures passes { OnOk result (refusal_of self.now id change.now ≡ None) }
        ensures refused { IfErr result (λ e. e ≢ ChangeError.OutOfMemory → refusal_of self.now id change.now ≡ Some e) }
    {
        let last = self.history(id).present();
        check(self.alloc, self.kinds.as_slice(), id, last, change)
    }

    /// Makes a change of the service `id` as `accept` does, where it is known that it is accepted. No test is made; `OutOfMemory`
    /// leaves the book as it was, and the change is dropped.
    pub fn apply(&mut self, id: ServiceId, change: Change) -> Result<(), OutOfMemory>
        requires { AcceptsChange self.old id change }
        ensures ok { OnOk result (self.new ≡ rows_after_change self.old id change) }
        ensures err { OnErr result (self.new ≡ self.old) }
    {
        let history = &mut self.histories[place(id)];
        history.append(change)?;
        Ok(())
    }

    /// The accepted definitions of the service `id`, lent.
    pub fn history(&self, id: ServiceId) -> &History
        requires { id < length self.now }
        ensures history { result.now ≡ history_of self.now id }
        ensures clock { length result.now ≤ MAX_CLOCK }
    {
        &self.histories[place(id)]
    }

    /// The service with this name; `None` exactly where none is declared.
    pub fn find(&self, name: &str) -> Option<ServiceId>
        ensures { result ≡ find_service self.now name.now }
    {
        let place = self.names.get_index_of(name)?;
        Some(ServiceId(place as u16))
    }

    /// How many services are declared.
    pub fn len(&self) -> usize
        ensures len { result ≡ length self.now }
        ensures book { IsBook self.now }
    {
        self.kinds.len()
    }

    /// The name of the service `id`.
    pub fn name(&self, id: ServiceId) -> &str
        requires { id < length self.now }
        ensures { result.now ≡ (row_at self.now id).name }
    {
        self.names.as_slice()[place(id)].as_str()
    }

    /// How many changes of the service `id` were accepted; 0 before its birth.
    pub fn clock(&self, id: ServiceId) -> Clock
        requires { id < length self.now }
        ensures { result ≡ length (history_of self.now id) }
    {
        Clock(self.history(id).len() as u32)
    }

    /// The rank and the type of the service `id`.
    pub fn kind(&self, id: ServiceId) -> Kind
        requires { id < length self.now }
        ensures { result ≡ kind_of (row_at self.now id) }
    {
        self.kinds[place(id)]
    }

    /// The ranks and the types of all services, in the order of declaration.
    pub fn roster(&self) -> Result<Roster, OutOfMemory>
        ensures { IfOk result (λ roster. roster ≡ roster_of self.now) }
    {
        Roster::from_slice(self.alloc, self.kinds.as_slice())
    }
}
