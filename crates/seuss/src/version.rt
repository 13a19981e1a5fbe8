//! Which program this is.

/// The program's version.
pub const VERSION: &str = "0.1.0";

/// What `scripts/source_digest.sh` prints of the sources. `scripts/version.sh` writes it.
pub const SOURCES: &str = "32f17fe992657599630f420b68f749873184672cbbd14a4f587f8534295a89bb";
