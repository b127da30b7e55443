//! A file that a pass visits. `ix_files` finds these files.

use ix_base::{Bytes, ChannelMeta};

/// A watched file.
pub struct Watched {
    pub path: Bytes,
    /// What its channel states of the events that come from it.
    pub meta: ChannelMeta,
    /// Whether an input names it without a `*`. A pass tells of such a file also where it is
    /// missing.
    pub named: bool,
}

/// It is written out, so that each place where one is let go is a call of it, which is proved once.
impl Drop for Watched {
    fn drop(self) {
        let Watched {
            path: _,
            meta: _,
            named: _,
        } = self;
    }
}
