//! Requests and replies: a request is read from a link and judged, and a reply is written to it.
//! Whoever serves a store over links calls these two.
#![tactic(auto)]

mod asks;
mod bodies;
mod gather;
mod kinds;
mod places;
mod ranges;
#[tactic(auto, using(ix_net::proofs::GoesLemmas::goings))]
mod replies;
mod requests;
mod router;
mod taking;
mod verdicts;

pub use ix_heads::LinkFault;
pub use kinds::{Ask, HttpFault, Incoming, Kind};
pub use places::routes_are_exact;
pub use replies::write_reply;
pub use requests::read_request;
pub use router::Routes;
