//! The fields of what stands on a disk: numbers, strings and options, written behind bytes and read
//! from the front of bytes. Records of events, items of a commit and the carry of a channel are
//! made of them.
#![tactic(auto)]

mod laws;
mod reading;
mod writing;

pub use laws::{one_front, read_back};
pub use reading::{
    BadField, read_byte, read_flag, read_i64, read_option, read_string, read_u32, read_u64,
};
pub use writing::{put_byte, put_flag, put_i64, put_option, put_string, put_u32, put_u64};
