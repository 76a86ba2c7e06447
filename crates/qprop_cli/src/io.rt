// Reading from a source and writing to a sink.
pub(crate) mod reading;
pub(crate) mod writing;
