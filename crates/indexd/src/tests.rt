//! Tests of the whole program, by `top`, over the forms in memory: the commands without a store,
//! those over one, and the requests that it serves; of a selftest; of a checkpoint, which the store
//! is asked for; and of the settings that a store keeps.

mod btool;
mod checkpointed;
mod connections;
mod damage;
mod events;
mod examples;
mod exchanges;
mod faults;
mod frozen;
mod hindered;
mod hostile;
mod kept;
mod monitored;
mod program;
mod requests;
mod runs;
mod selftest;
mod settings;
mod shortened;
mod shows;
mod sockets;
mod steps;
mod stops;
mod used;
