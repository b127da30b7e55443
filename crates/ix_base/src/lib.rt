//! What every other crate stands on: the traits of the outside with their forms in memory and over
//! the real things, and the types that crates share.
#![tactic(auto)]

mod clocks;
mod counter;
mod events;
mod faults;
mod files;
mod sequences;
mod sinks;
mod sources;

pub use clocks::{Clock, HostClock, LATEST_MOMENT, MemClock, clamped};
pub use counter::Steps;
pub use events::{ChannelMeta, Event, EventRef, Line, LineList, Range, Routed, RoutedList, Spot};
pub use faults::{BadRecord, FailPlan, Failed, NoMemory};
pub use files::{Area, File};
pub use sequences::{Bytes, Names, NumberList, Sequence, Text};
pub use sinks::{MemSink, Sink, StdSink};
pub use sources::{MemSource, Source, StdSource};
