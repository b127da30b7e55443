//! Numbers of names. A mount finds by them what stands under a name, and staging which items may
//! stand under one name.

ghost use Rattle.std.specs.Prelude.{◌≡◌, ◌<◌, fold};
ghost use Rattle.ix_manifest.specs.Book.{name_of};
ghost use Rattle.ix_manifest.specs.Keys.{mixed, key_in};

use crate::names::{kind, number, text};
use ix_items::Item;

/// What the sums of bytes stay below: the greatest prime that has room in 32 bits.
const PRIME: u64 = 4_294_967_291;

fn mix(sum: u64, byte: u8) -> u64
    requires { sum < 4294967291 }
    ensures value { result ≡ mixed sum byte }
    ensures small { result < 4294967291 }
{
    (sum * 31 + u64::from(byte)) % PRIME
}

fn mix_all(first: u8, text: &[u8]) -> u64
    ensures value { result ≡ fold mixed first text.now }
    ensures small { result < 4294967291 }
{
    let mut sum = u64::from(first);
    for byte in text {
        sum = mix(sum, *byte);
    }
    sum
}

/// The number of the name that an item stands under. Items of two numbers stand under two names;
/// two names of one number are rare.
pub fn key_of(item: &Item) -> u64
    ensures { result ≡ key_in item.now }
{
    mix_all(kind(item), text(item)) * (1 << 32) + number(item) % (1 << 32)
}
