//! Connections: a link is read from and written to, and a listener accepts links. Their forms in
//! memory, a link of an input and an output, and a listener over the system's sockets. Requests and
//! replies go over links.
#![tactic(auto)]

mod ahead;
mod arriving;
mod extent;
mod link;
mod listener;
mod mem_link;
mod mem_listener;
mod outline;
mod paced;
mod pair;
mod patience;
mod queue;
mod tcp;
mod tcp_link;

pub use link::{Link, Side};
pub use listener::Listener;
pub use mem_link::MemLink;
pub use mem_listener::{MemLinkList, MemListener};
pub use pair::Pair;
pub use tcp::TcpListen;
pub use tcp_link::TcpLink;
