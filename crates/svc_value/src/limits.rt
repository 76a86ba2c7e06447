// The limits of the product, each in one place. Contracts cite them.

/// The most services of a network. A set of services fits in one word of 64 bits.
pub const MAX_SERVICES: usize = 64;

/// The most dependencies of a service.
pub const MAX_DEPENDENCIES: usize = 16;

/// The most changes of a leg, births among them.
pub const MAX_CHANGES: usize = 1024;

/// The most legs of a document.
pub const MAX_LEGS: usize = 1000;

/// The greatest rank of a service.
pub const MAX_RANK: u64 = 1000;

/// The greatest clock: as many changes as all legs may have.
pub const MAX_CLOCK: u32 = 1_024_000;

/// The most bytes of a document, and of a stream of frames.
pub const MAX_DOCUMENT_LEN: usize = 1_048_576;

/// The most bytes of a line, without its end.
pub const MAX_LINE_LEN: usize = 4096;

/// The most bytes of a text value.
pub const MAX_TEXT_LEN: usize = 256;

/// The most bytes of a frame.
pub const MAX_FRAME_LEN: usize = 585;
