//! How a run of requests ended: by what served them, by the side of the link that failed, and by
//! what came of making the log short behind them. `feed`, `serve` and `run` make these ends.

ghost use Rattle.std.specs.Prelude.{◌≡◌};
ghost use Rattle.indexd_serve.specs.Ends as defs;

use ix_base::File;
use ix_commit::CommitFault;
use ix_manifest::CheckpointFault;
use ix_net::Side;
use ix_sessions::{Fed, Heard};

/// How a run of requests ended.
#[derive(Clone, Copy, Debug, PartialEq, Eq)]
pub enum End {
    /// The input has ended, behind a request or before the first.
    Ended,
    /// The input ended inside a request, or it is not known where the request ends, so that nothing
    /// behind it can be read.
    Unreadable {
        /// Its number, from 1 on.
        request: u64,
    },
    /// There was no room in memory to read a request, and it is not known where it ends; or none to
    /// make the log short behind all of them, however they ended. What was accepted is committed.
    Memory,
    /// 2^32 requests were served.
    Endless,
    /// The disk has failed.
    Disk,
    /// In this file, from this place on, does not stand what was committed.
    Damaged {
        file: File,
        at: u64,
    },
    /// Reading the input failed.
    Input,
    /// Writing the output failed.
    Output,
}

/// How a run of connections ended.
#[derive(Clone, Copy, Debug, PartialEq, Eq)]
pub enum ServeEnd {
    /// As many connections were served as were to be.
    Done,
    /// The listener has failed.
    Listener,
    /// There was no room in memory to make the log short behind the connections, however they
    /// ended. What was accepted is committed.
    Memory,
    /// The disk has failed.
    Disk,
    /// In this file, from this place on, does not stand what was committed.
    Damaged { file: File, at: u64 },
}

/// The end of a run whose requests ended so, by what came of making the log short behind them.
pub(crate) fn fed_behind(end: Fed, shortened: Result<(), CheckpointFault>) -> Fed
    ensures { result ≡ defs.fed_behind end shortened }
{
    match shortened {
        Ok(()) => end,
        Err(CheckpointFault::Disk) => Fed::Broken {
            cause: CommitFault::Disk,
        },
        Err(CheckpointFault::NoMemory) => Fed::NoMemory,
    }
}

/// The end where the link failed, by the side that did.
fn link_end(failed: Option<Side>) -> End
    ensures { result ≡ defs.link_end failed }
{
    match failed {
        Some(Side::Reading) => End::Input,
        Some(Side::Writing) | None => End::Output,
    }
}

/// How requests over an input and an output ended.
pub(crate) fn end_of(fed: Fed, failed: Option<Side>) -> End
    ensures { result ≡ defs.end_of fed failed }
{
    match fed {
        Fed::Ended => End::Ended,
        Fed::Unreadable { request } => End::Unreadable { request },
        Fed::NoMemory => End::Memory,
        Fed::Endless => End::Endless,
        Fed::Link => link_end(failed),
        Fed::Broken { cause } => match cause {
            CommitFault::Disk => End::Disk,
            CommitFault::Damaged { file, at } => End::Damaged { file, at },
        },
    }
}

/// The end of a run whose connections ended so.
pub(crate) fn heard_end(end: Heard) -> ServeEnd
    ensures { result ≡ defs.heard_end end }
{
    match end {
        Heard::Done => ServeEnd::Done,
        Heard::Listener => ServeEnd::Listener,
        Heard::Broken { cause } => match cause {
            CommitFault::Disk => ServeEnd::Disk,
            CommitFault::Damaged { file, at } => ServeEnd::Damaged { file, at },
        },
    }
}

/// The end of a run whose connections ended so, by what came of making the log short behind them.
pub(crate) fn heard_behind(end: Heard, shortened: Result<(), CheckpointFault>) -> ServeEnd
    ensures { result ≡ defs.heard_behind end shortened }
{
    match shortened {
        Ok(()) => heard_end(end),
        Err(CheckpointFault::Disk) => ServeEnd::Disk,
        Err(CheckpointFault::NoMemory) => ServeEnd::Memory,
    }
}
