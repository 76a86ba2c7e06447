//! The values of services, computed from a book in one place: what the network of services is compared with. They are those of
//! all services by their last definitions, or that of one service at the clocks of stamps. Each service is computed once, after
//! the services that it depends on.
#![tactic(auto)]

mod at;
mod evaluation;
mod reaching;

pub use at::central_at;
pub use evaluation::central;
