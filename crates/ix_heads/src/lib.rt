//! The heads of requests: a head is read from a link, and its header lines are looked up. `ix_http`
//! judges what they say.
#![tactic(auto)]

mod bytes;
mod faults;
mod judging;
mod lengths;
mod lines;
mod reading;
mod scan;

pub use bytes::read_byte;
pub use faults::LinkFault;
pub use httparse::spans::{EMPTY_HEADER_SPAN, HeaderSpan, RequestSpans};
pub use lengths::{Declared, declared_length};
pub use lines::{Found, Head};
pub use reading::{HeadRead, MAX_HEAD, MAX_LINES, read_head};
