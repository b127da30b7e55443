//! The size rule: the shortest prefix whose going meets a limit, or the whole list.

ghost use Rattle.std.specs.Prelude.{◌≡◌, ◌<◌, ◌≤◌, ◌^◌, length};
ghost use Rattle.ix_life.specs.Prefix as defs;

use ix_items::Bucket;

/// What buckets must stay within.
#[derive(Clone, Copy)]
pub struct Cap {
    /// The most buckets.
    pub most: Option<u64>,
    /// The bytes of other buckets, which count too.
    pub beside: u128,
    /// The most bytes, those of the other buckets included.
    pub within: Option<u128>,
}

/// The bytes of the buckets.
pub fn sizes(buckets: &[Bucket]) -> u128
    ensures value { result ≡ defs.sizes buckets.now }
    ensures short { result < 2 ^ 127 }
{
    let mut total: u128 = 0;
    for i in 0..buckets.len() {
        total += u128::from(buckets[i].bytes);
    }
    total
}

/// Whether a number of buckets meets a limit.
fn meets_count(limit: Option<u64>, count: usize) -> bool
    ensures { result ≡ defs.meets limit count }
{
    match limit {
        Some(most) => count as u64 <= most,
        None => true,
    }
}

/// Whether bytes meet a limit.
fn meets_bytes(limit: Option<u128>, bytes: u128) -> bool
    ensures { result ≡ defs.meets limit bytes }
{
    match limit {
        Some(most) => bytes <= most,
        None => true,
    }
}

/// Whether so many buckets of so many bytes may stay.
fn fits(cap: &Cap, count: usize, bytes: u128) -> bool
    requires beside { cap.now.beside < 2 ^ 127 }
    requires bytes { bytes < 2 ^ 127 }
    ensures { result ≡ defs.fits cap.now count bytes }
{
    meets_count(cap.most, count) && meets_bytes(cap.within, cap.beside + bytes)
}

/// How many of the buckets go, from the front on, until the others are within the cap: the shortest
/// prefix, or all.
pub fn shortest(buckets: &[Bucket], cap: &Cap) -> usize
    requires { cap.now.beside < 2 ^ 127 }
    ensures value { result ≡ defs.shortest (defs.allowed cap.now) buckets.now }
    ensures is { defs.IsShortest (defs.allowed cap.now) buckets.now result }
    ensures within { result ≤ length buckets.now }
{
    let mut left = sizes(buckets);
    for i in 0..buckets.len() {
        if fits(cap, buckets.len() - i, left) {
            return i;
        }
        left -= u128::from(buckets[i].bytes);
    }
    buckets.len()
}

/// A law: the words of the size rule fix how many go.
pub fn one_shortest()
    ensures { defs.HasOneShortest }
{}
