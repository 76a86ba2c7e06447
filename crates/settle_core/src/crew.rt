// The services of a network as workers.

use crate::Worker;
use svc_graph::Book;

/// A book, and a worker for each of its services, in order.
#[derive(Drop)]
pub struct Crew {
    /// The services with their definitions.
    pub book: Book,
    /// The worker of each service, in the order of declaration.
    pub workers: Vec<Worker>,
}
