// The size of a document that is made.
ghost use Rattle.std.specs.Prelude.{◌≡◌, Some};
ghost use Rattle.command_words.specs.Words.{size_of};

use crate::numbers::MAX_NUMBER;

/// How large a document is to be made.
#[derive(Clone, Copy, Debug, PartialEq, Eq)]
pub struct Size {
    /// The number of services, from 2 to 64.
    pub services: u16,
    /// The number of changes, births among them, from that of the services to 1,024.
    pub changes: u16,
    /// The number that the draws begin with, at most 65,536.
    pub start: u32,
}

/// The size of these numbers, `None` where one is missing or they are no size.
pub(crate) fn size_of(
    services: Option<u32>,
    changes: Option<u32>,
    start: Option<u32>,
) -> Option<Size>
    ensures { result ≡ size_of services changes start }
{
    match (services, changes, start) {
        (Some(services), Some(changes), Some(start)) => sized(services, changes, start),
        _ => None,
    }
}

// The size, if it is one.
fn sized(services: u32, changes: u32, start: u32) -> Option<Size>
    ensures { result ≡ size_of (Some services) (Some changes) (Some start) }
{
    if services < 2 || services > 64 || changes < services || changes > 1024 || start > MAX_NUMBER {
        return None;
    }
    Some(Size {
        services: services as u16,
        changes: changes as u16,
        start,
    })
}
