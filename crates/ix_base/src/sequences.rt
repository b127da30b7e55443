//! Lists that contracts see as lists.

ghost use Rattle.std.specs.Prelude.{◌≡◌, ◌≤◌, ◌+◌, ◌-◌, ◌++◌, ◌∷◌, [], length, take, drop, replicate, min, OnOk, OnErr, IfOk, ◌==◌};
ghost use Rattle.std.specs.Prelude.{string_bytes, option_to_list, IsSome, ◌↔◌, ◌<◌, slice_set, slice_get, Some};
ghost use Rattle.std.specs.Str.{IsUtf8};

use crate::faults::NoMemory;
use std::alloc::Global;
use std::marker::Model;
use std::{fmt, mem};

/// A list of values in memory. Contracts see it as the list of its values.
#[derive(Drop)]
pub struct Sequence<T> {
    items: Vec<T>,
}

/// Bytes. Contracts see them as a list of numbers below 256.
pub type Bytes = Sequence<u8>;

/// A list of names, each any bytes.
pub type Names = Sequence<Bytes>;

/// A list of numbers below 2^64.
pub type NumberList = Sequence<u64>;

impl<T> Model for Sequence<T> {
    ghost use Rattle.std.specs.Prelude.{List};

    ghost Value = { List T };

    ghost view = { λ s. s.items.items };
}

impl<T> Sequence<T> {
    /// An empty list. It takes no memory.
    pub fn new(alloc: Global) -> Self
        ensures { result ≡ [] }
    {
        Sequence {
            items: Vec::new(alloc),
        }
    }

    /// The list of a vector's values. It takes no memory.
    pub fn from_vec(items: Vec<T>) -> Self
        ensures { result ≡ items.items }
    {
        Sequence { items }
    }

    /// The vector that the list was kept in. It takes no memory.
    pub fn into_vec(self) -> Vec<T>
        ensures { result.items ≡ self }
    {
        self.items
    }

    /// An empty list over the same allocator. It takes no memory.
    pub fn empty(&self) -> Self
        ensures { result ≡ [] }
    {
        Sequence {
            items: Vec::new(*self.items.allocator()),
        }
    }

    /// How many values there are.
    pub fn len(&self) -> usize
        ensures { result ≡ length self.now }
    {
        self.items.len()
    }

    /// Whether there is no value.
    pub fn is_empty(&self) -> bool
        ensures { result ≡ (length self.now == 0) }
    {
        self.items.is_empty()
    }

    /// The values, lent.
    pub fn as_slice(&self) -> &[T]
        ensures { result.now ≡ self.now }
    {
        self.items.as_slice()
    }

    /// Takes the last value off, if there is one.
    pub fn pop(&mut self) -> Option<T>
        ensures last { self.old ≡ self.new ++ option_to_list result }
        ensures some { IsSome result ↔ (0 < length self.old) }
    {
        self.items.pop()
    }
}

impl<T: Drop> Sequence<T> {
    /// Adds a value at the end. Where there is no room for it, it is dropped and nothing else
    /// changes.
    pub fn push(&mut self, value: T) -> Result<(), NoMemory>
        ensures ok { OnOk result (self.new ≡ self.old ++ value ∷ []) }
        ensures err { OnErr result (self.new ≡ self.old) }
    {
        match self.items.push(value) {
            Ok(()) => Ok(()),
            Err(_) => Err(NoMemory),
        }
    }

    /// Puts a value in place of the one that stands there, and answers that one.
    pub fn replace(&mut self, at: usize, value: T) -> T
        requires { at < length self.old }
        ensures items { self.new ≡ slice_set self.old at value }
        ensures there { slice_get self.old at ≡ Some result }
    {
        mem::replace(&mut self.items[at], value)
    }

    /// Drops all values. The room that they had is kept for others.
    pub fn clear(&mut self)
        ensures { self.new ≡ [] }
    {
        self.items.clear();
    }

    /// Drops the values from this place on. The room that they had is kept for others.
    pub fn truncate(&mut self, len: usize)
        ensures { self.new ≡ take len self.old }
    {
        self.items.truncate(len);
    }
}

impl Sequence<u8> {
    /// A copy of the bytes.
    pub fn copy_of(alloc: Global, bytes: &[u8]) -> Result<Self, NoMemory>
        ensures { IfOk result (λ copy. copy ≡ bytes.now) }
    {
        let items = bytes.to_vec(alloc)?;
        Ok(Sequence { items })
    }

    /// A copy of these bytes, from the same allocator.
    pub fn copy(&self) -> Result<Self, NoMemory>
        ensures { IfOk result (λ copy. copy ≡ self.now) }
    {
        Sequence::copy_of(*self.items.allocator(), &self.items)
    }

    /// Adds bytes at the end. Where there is no room for all of them nothing changes.
    pub fn extend(&mut self, bytes: &[u8]) -> Result<(), NoMemory>
        ensures ok { OnOk result (self.new ≡ self.old ++ bytes.now) }
        ensures err { OnErr result (self.new ≡ self.old) }
    {
        match self.items.extend_from_slice(bytes) {
            Ok(()) => Ok(()),
            Err(_) => Err(NoMemory),
        }
    }

    /// Writes bytes over those from a place on, and past the end. Where there is no room for them
    /// nothing changes.
    pub fn overwrite(&mut self, at: usize, bytes: &[u8]) -> Result<(), NoMemory>
        requires { at ≤ length self.old }
        ensures ok { OnOk result (self.new ≡ take at self.old ++ bytes.now ++ drop (at + length bytes.now) self.old) }
        ensures err { OnErr result (self.new ≡ self.old) }
    {
        let over = bytes.len().min(self.items.len() - at);
        self.items.extend_from_slice(&bytes[over..])?;
        self.items[at..at + over].copy_from_slice(&bytes[..over]);
        Ok(())
    }

    /// Sets the bytes from a place on, `count` of them at the most, and none past the end.
    pub fn fill(&mut self, at: usize, count: usize, byte: u8)
        ensures { self.new ≡ take at self.old ++ replicate (min count (length self.old - at)) byte ++ drop (at + count) self.old }
    {
        if at < self.items.len() {
            let count = count.min(self.items.len() - at);
            self.items[at..at + count].fill(byte);
        }
    }
}

/// Written as the vector of its values, so that a fault that holds bytes can be printed for its
/// maintainers.
impl<T: fmt::Debug> fmt::Debug for Sequence<T> {
    ghost use Rattle.std.specs.Fmt.{debug_list};

    ghost debug_output = { λ s. debug_list T.debug_output s };

    fn fmt<W: fmt::Write>(&self, f: &mut fmt::Formatter<W>) -> fmt::Result {
        fmt::Debug::fmt(&self.items, f)
    }
}

/// A text in UTF-8. Contracts see it as the list of its bytes.
#[derive(Drop)]
pub struct Text {
    string: String,
}

impl Model for Text {
    ghost use Rattle.std.specs.Prelude.{List, ℕ, string_bytes};

    ghost Value = { List ℕ };

    ghost view = { λ t. string_bytes t.string };
}

impl Text {
    /// The text of a string. It takes no memory.
    pub fn from_string(string: String) -> Self
        ensures { result ≡ string_bytes string }
    {
        Text { string }
    }

    /// The text, lent.
    pub fn as_str(&self) -> &str
        ensures { result.now ≡ self.now }
    {
        self.string.as_str()
    }

    /// The bytes of the text, lent.
    pub fn as_bytes(&self) -> &[u8]
        ensures value { result.now ≡ self.now }
        ensures utf8 { IsUtf8 self.now }
    {
        self.string.as_str().as_bytes()
    }
}

/// Written in quotes, as a string is.
impl fmt::Debug for Text {
    ghost use Rattle.std.specs.Fmt.{debug_str};

    ghost debug_output = { λ t. debug_str t };

    fn fmt<W: fmt::Write>(&self, f: &mut fmt::Formatter<W>) -> fmt::Result {
        fmt::Debug::fmt(&self.string, f)
    }
}
