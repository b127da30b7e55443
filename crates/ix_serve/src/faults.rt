//! The statuses and names of faults, and the body that names one.

ghost use Rattle.std.specs.Prelude.{◌≡◌, ◌≤◌, length};
ghost use Rattle.ix_serve.specs.Bodies.{error_body, refusal_name, commit_name};
ghost use Rattle.ix_serve.specs.Replies as defs;

use arrayvec::ArrayString;
use ix_commit::CommitFault;
use ix_http::HttpFault;
use ix_model::Refusal;

/// The status of a request that is refused before the store is asked.
pub(crate) fn http_status(fault: HttpFault) -> u16
    ensures { result ≡ defs.http_status fault }
{
    match fault {
        HttpFault::BadHead | HttpFault::BadQuery | HttpFault::BadBody => 400,
        HttpFault::NoRoute => 404,
        HttpFault::WrongMethod => 405,
        HttpFault::NoLength => 411,
        HttpFault::Encoded => 415,
        HttpFault::TooLong => 413,
    }
}

/// The status of a command that the store refuses.
pub(crate) fn refusal_status(refusal: Refusal) -> u16
    ensures { result ≡ defs.refusal_status refusal }
{
    match refusal {
        Refusal::Closed => 500,
        Refusal::NoChannel | Refusal::UnknownIndex => 404,
        Refusal::NoBucket | Refusal::NotArchived | Refusal::AlreadyThawed => 404,
        Refusal::ChannelOpen => 409,
        Refusal::TooManyChannels => 429,
        Refusal::Full => 507,
        Refusal::NoMemory => 503,
    }
}

/// The name that its reply has. A store is closed by a fault of its disk, and no request gives a
/// command that is refused for a bucket.
pub(crate) fn refusal_name(refusal: Refusal) -> &'static str
    ensures name { result.now ≡ refusal_name refusal }
    ensures short { length result.now ≤ 20 }
{
    match refusal {
        Refusal::Closed => "Disk",
        Refusal::NoChannel => "NoChannel",
        Refusal::ChannelOpen => "ChannelOpen",
        Refusal::UnknownIndex => "UnknownIndex",
        Refusal::NoBucket => "NoBucket",
        Refusal::NotArchived => "NotArchived",
        Refusal::AlreadyThawed => "AlreadyThawed",
        Refusal::TooManyChannels => "TooManyChannels",
        Refusal::Full => "Full",
        Refusal::NoMemory => "NoMemory",
    }
}

/// The name of why a disk failed or is damaged.
pub(crate) fn commit_name(cause: CommitFault) -> &'static str
    ensures name { result.now ≡ commit_name cause }
    ensures short { length result.now ≤ 20 }
{
    match cause {
        CommitFault::Disk => "Disk",
        CommitFault::Damaged { .. } => "Damaged",
    }
}

/// The body of a reply that names a fault.
pub(crate) fn error_body(name: &str) -> ArrayString<40>
    requires { length name.now ≤ 20 }
    ensures { result.bytes ≡ error_body name.now }
{
    let mut body = ArrayString::<40>::new();
    body.push_str("{\"error\":\"");
    body.push_str(name);
    body.push_str("\"}");
    body
}
