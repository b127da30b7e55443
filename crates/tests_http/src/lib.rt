//! Tests of links, requests and replies, and of the words of the command line, by public calls.
#![tactic(auto)]

#[cfg(test)]
mod calls;
#[cfg(test)]
mod crowd;
#[cfg(test)]
mod faults;
#[cfg(test)]
mod peers;
#[cfg(test)]
mod requests;
#[cfg(test)]
mod said;
#[cfg(test)]
mod sockets;
#[cfg(test)]
mod words;
