// The numbers by which services, ranks and clocks are known.
use std::marker::Model;

/// The number of a service: its place in the order of declaration, from 0. Contracts see the number.
#[derive(Clone, Copy, Debug, PartialEq, Eq, PartialOrd, Ord, Hash)]
pub struct ServiceId(pub u16);

impl Model for ServiceId {
    ghost use Rattle.std.specs.Prelude.{ℕ};

    ghost Value = { ℕ };

    ghost view = { λ id. id.0 };

    ghost inverse = { λ n. record { 0 = n } };
}

/// The rank of a service: 0 for an input, and from 1 to 1000 for a derived service. Contracts see the number.
#[derive(Clone, Copy, Debug, PartialEq, Eq, PartialOrd, Ord, Hash)]
pub struct Rank(pub u16);

impl Model for Rank {
    ghost use Rattle.std.specs.Prelude.{ℕ};

    ghost Value = { ℕ };

    ghost view = { λ rank. rank.0 };

    ghost inverse = { λ n. record { 0 = n } };
}

/// A clock of a service: how many changes of it were accepted. Contracts see the number.
#[derive(Clone, Copy, Debug, PartialEq, Eq, PartialOrd, Ord, Hash)]
pub struct Clock(pub u32);

impl Model for Clock {
    ghost use Rattle.std.specs.Prelude.{ℕ};

    ghost Value = { ℕ };

    ghost view = { λ clock. clock.0 };

    ghost inverse = { λ n. record { 0 = n } };
}
