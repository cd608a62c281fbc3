//! The lengths of the parts of a run file, in bytes.

/// The length of the settings.
pub const SETTINGS: usize = 20;

/// The length of the trailer.
pub const TRAILER: usize = 16;

/// The length of a request to read.
pub const READ: usize = 3;

/// The length of a request to write.
pub const WRITE: usize = 19;

/// The least length of a run file, which has no lead and no requests.
pub const SHORTEST: usize = 36;

/// The greatest length of a run file.
pub const LONGEST: usize = 65536;
