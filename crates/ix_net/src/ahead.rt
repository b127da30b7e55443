//! Bytes that were read before they were asked for. A connection of the system keeps them.

ghost use Rattle.std.specs.Prelude.{◌≤◌, length};

use std::alloc::Global;

/// How many bytes are read at once, so that a head and a small body are one read.
const ROOM: usize = 8192;

/// Bytes of a peer that nobody has taken yet.
#[derive(Drop)]
pub(crate) struct Ahead {
    /// They are made once, and stay where they are: only the two ends are moved.
    bytes: Vec<u8>,
    from: usize,
    to: usize,
}

impl Ahead {
    /// No bytes. Where there is no room in memory, none is ever read ahead.
    pub(crate) fn new(alloc: Global) -> Self {
        Ahead {
            bytes: vec![in alloc; 0u8; ROOM].unwrap_or(Vec::new(alloc)),
            from: 0,
            to: 0,
        }
    }

    /// Whether all were taken.
    pub(crate) fn is_empty(&self) -> bool {
        self.from >= self.to
    }

    /// Whether a read of so many bytes is worth no detour.
    pub(crate) fn is_large(&self, count: usize) -> bool {
        count >= self.bytes.len()
    }

    /// Takes the first ones, as many as there is room for, and answers how many.
    pub(crate) fn take(&mut self, buf: &mut [u8]) -> usize
        ensures { result ≤ length buf.old }
    {
        let to = self.to.min(self.bytes.len());
        let from = self.from.min(to);
        let n = (to - from).min(buf.len());
        buf[..n].copy_from_slice(&self.bytes[from..from + n]);
        self.from = from + n;
        n
    }

    /// Whether there is no room behind the bytes.
    pub(crate) fn is_full(&self) -> bool {
        self.to >= self.bytes.len()
    }

    /// The room behind the bytes, where more are read to.
    pub(crate) fn rest(&mut self) -> &mut [u8] {
        let to = self.to.min(self.bytes.len());
        &mut self.bytes[to..]
    }

    /// So many bytes were read behind the others. They are lent.
    pub(crate) fn add(&mut self, count: usize) -> &[u8] {
        let from = self.to.min(self.bytes.len());
        let to = from + count.min(self.bytes.len() - from);
        self.to = to;
        &self.bytes[from..to]
    }

    /// Where the next bytes are read to. Those that were not taken are forgotten.
    pub(crate) fn room(&mut self) -> &mut [u8] {
        self.from = 0;
        self.to = 0;
        self.bytes.as_mut_slice()
    }

    /// So many bytes were read there.
    pub(crate) fn filled(&mut self, count: usize) {
        self.from = 0;
        self.to = count;
    }
}
