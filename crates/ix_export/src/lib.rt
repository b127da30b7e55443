//! The events of buckets are written as lines, one bucket behind the other.
#![tactic(auto)]

mod export;
mod exporting;
mod fault;
mod in_range;
#[tactic(auto, using(ix_base::proofs::ToldLemmas::puts))]
mod line_writer;
#[tactic(auto, using(ix_base::proofs::ToldLemmas::puts))]
mod lines;
#[tactic(auto, using(ix_base::proofs::ToldLemmas::puts))]
mod writer;

pub use exporting::export_buckets;
pub use fault::BucketFault;
pub use line_writer::LineWriter;
pub use lines::write_line;
