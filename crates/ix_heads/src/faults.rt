//! Why no request could be read from a link.

use thiserror::Error;

/// Why no request could be read.
#[derive(Clone, Copy, Debug, PartialEq, Eq, Error)]
pub enum LinkFault {
    /// The link failed.
    #[error("the link failed")]
    Failed,
    /// The link ended inside a request.
    #[error("the link ended inside a request")]
    Cut,
    /// There was no room in memory.
    #[error("there was no room in memory for the request")]
    NoMemory {
        /// Whether the request ends where its head says, and just its bytes were taken.
        whole: bool,
    },
}
