//! Replies are written to a link.

ghost use Rattle.std.specs.Prelude.{◌≡◌, ◌≤◌, length, Some, Err, true};
ghost use Rattle.ix_base.specs.Faults.{Rose};
ghost use Rattle.ix_net.specs.Links.{LinkStep};
ghost use Rattle.ix_serve.specs.Answer.{answer_of_fault};
ghost use Rattle.ix_serve.specs.Bodies.{error_body};
ghost use Rattle.ix_serve.specs.Replies.{reply, unread, refused, broken, no_memory};
ghost use Rattle.ix_serve.specs.Serving.{Gave, IsClean, IsOpen};

use crate::faults::{commit_name, error_body, http_status, refusal_name, refusal_status};
use crate::served::{ServeFault, Served, answer_of_fault};
use ix_commit::CommitFault;
use ix_http::{HttpFault, Kind, write_reply};
use ix_model::Refusal;
use ix_net::Link;

/// Writes a reply.
pub(crate) fn give<K: Link>(
    link: &mut K,
    status: u16,
    kind: Kind,
    body: &[u8],
    delimited: bool,
) -> Result<Served, ServeFault>
    ensures gave { Gave (Some (reply status kind body.now)) delimited
        (IsClean (K.faults link.old) (K.faults link.new) (K.standing link.old) (K.standing link.new)) result (K.given link.old)
        (K.given link.new) }
    ensures left { K.left link.new ≡ K.left link.old }
    ensures open { IsOpen result }
    ensures goes { LinkStep (K.standing link.old) (K.standing link.new) }
    ensures later { K.faults link.old ≤ K.faults link.new }
    ensures failed { result ≡ Err ServeFault.Link → Rose (K.faults link.old) (K.faults link.new) }
{
    match write_reply(link, status, kind, body) {
        Ok(()) => Ok(Served::Reply {
            status,
            delimited,
            unshortened: false,
        }),
        Err(_) => Err(ServeFault::Link),
    }
}

/// Writes a reply that names a fault.
fn give_error<K: Link>(
    link: &mut K,
    status: u16,
    name: &str,
    delimited: bool,
) -> Result<Served, ServeFault>
    requires { length name.now ≤ 20 }
    ensures gave { Gave (Some (reply status Kind.Json (error_body name.now))) delimited
        (IsClean (K.faults link.old) (K.faults link.new) (K.standing link.old) (K.standing link.new)) result (K.given link.old)
        (K.given link.new) }
    ensures left { K.left link.new ≡ K.left link.old }
    ensures open { IsOpen result }
    ensures goes { LinkStep (K.standing link.old) (K.standing link.new) }
    ensures later { K.faults link.old ≤ K.faults link.new }
    ensures failed { result ≡ Err ServeFault.Link → Rose (K.faults link.old) (K.faults link.new) }
{
    let body = error_body(name);
    give(
        link,
        status,
        Kind::Json,
        body.as_str().as_bytes(),
        delimited,
    )
}

/// Writes why a request is refused before the store is asked.
pub(crate) fn give_unread<K: Link>(
    link: &mut K,
    fault: HttpFault,
    delimited: bool,
) -> Result<Served, ServeFault>
    ensures gave { Gave (Some (unread fault)) delimited
        (IsClean (K.faults link.old) (K.faults link.new) (K.standing link.old) (K.standing link.new)) result (K.given link.old)
        (K.given link.new) }
    ensures left { K.left link.new ≡ K.left link.old }
    ensures open { IsOpen result }
    ensures goes { LinkStep (K.standing link.old) (K.standing link.new) }
    ensures later { K.faults link.old ≤ K.faults link.new }
    ensures failed { result ≡ Err ServeFault.Link → Rose (K.faults link.old) (K.faults link.new) }
{
    give_error(link, http_status(fault), fault.name(), delimited)
}

/// Writes why the store refuses a command.
pub(crate) fn give_refusal<K: Link>(link: &mut K, refusal: Refusal) -> Result<Served, ServeFault>
    ensures gave { Gave (Some (refused refusal)) true (IsClean (K.faults link.old) (K.faults link.new) (K.standing link.old)
        (K.standing link.new)) result (K.given link.old) (K.given link.new) }
    ensures left { K.left link.new ≡ K.left link.old }
    ensures open { IsOpen result }
    ensures goes { LinkStep (K.standing link.old) (K.standing link.new) }
    ensures later { K.faults link.old ≤ K.faults link.new }
    ensures failed { result ≡ Err ServeFault.Link → Rose (K.faults link.old) (K.faults link.new) }
{
    give_error(link, refusal_status(refusal), refusal_name(refusal), true)
}

/// Writes that there was no room in memory.
pub(crate) fn decline<K: Link>(link: &mut K, delimited: bool) -> Result<Served, ServeFault>
    ensures gave { Gave (Some no_memory) delimited (IsClean (K.faults link.old) (K.faults link.new) (K.standing link.old)
        (K.standing link.new)) result (K.given link.old) (K.given link.new) }
    ensures left { K.left link.new ≡ K.left link.old }
    ensures open { IsOpen result }
    ensures goes { LinkStep (K.standing link.old) (K.standing link.new) }
    ensures later { K.faults link.old ≤ K.faults link.new }
    ensures failed { result ≡ Err ServeFault.Link → Rose (K.faults link.old) (K.faults link.new) }
{
    let refusal = Refusal::NoMemory;
    give_error(
        link,
        refusal_status(refusal),
        refusal_name(refusal),
        delimited,
    )
}

/// Writes that the disk has failed or is damaged, and answers why.
pub(crate) fn give_up<K: Link>(link: &mut K, cause: CommitFault) -> Result<Served, ServeFault>
    ensures result { result ≡ Err (answer_of_fault cause) }
    ensures gave { Gave (Some (broken cause)) true (IsClean (K.faults link.old) (K.faults link.new) (K.standing link.old)
        (K.standing link.new)) result (K.given link.old) (K.given link.new) }
    ensures left { K.left link.new ≡ K.left link.old }
    ensures goes { LinkStep (K.standing link.old) (K.standing link.new) }
    ensures later { K.faults link.old ≤ K.faults link.new }
{
    let _ = give_error(link, 500, commit_name(cause), true);
    Err(answer_of_fault(cause))
}
