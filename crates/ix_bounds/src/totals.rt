//! How much the settings, the channels and the spots of a state come to. The store adds up those of
//! the state to come part by part, since its channels and spots are not in one list yet.

ghost use Rattle.std.specs.Prelude.{◌≡◌, ◌+◌, ◌^◌, ◌<◌, ◌++◌, ◌∷◌, ℕ, List, [], length, min};
ghost use Rattle.ix_base.specs.declared.events.ChannelMeta.{ChannelMeta};
ghost use Rattle.ix_base.specs.declared.events.Spot.{Spot};
ghost use Rattle.ix_coding.specs.Spelling.{string, option};
ghost use Rattle.ix_items.specs.Spelling.{kept_bytes};
ghost use Rattle.ix_catalog.specs.Measures.{capped};
ghost use Rattle.ix_bounds.specs.Totals.{AreChannels, AreSpots};
ghost use Rattle.ix_bounds.specs.Within as defs;

use ix_base::{Bytes, ChannelMeta, Spot};
use ix_items::Kept;

/// Open channels in sum.
#[derive(Clone, Copy, Debug, PartialEq, Eq)]
pub struct Channels {
    /// How many there are.
    pub count: u128,
    /// How many bytes their items have, without what is carried of their streams; 2^128 - 1 where
    /// there are more.
    pub size: u128,
}

/// Spots in sum.
#[derive(Clone, Copy, Debug, PartialEq, Eq)]
pub struct Spots {
    /// Whether all their offsets are below 2^63.
    pub within: bool,
    /// How many bytes their items have, 2^128 - 1 where there are more.
    pub size: u128,
}

#[tactic(auto, using(ix_replay::proofs::Lengths::length_string))]
fn string_size(text: &[u8]) -> u128
    ensures size { result ≡ length (string text.now) }
    ensures bound { result < 2 ^ 65 }
{
    4 + text.len() as u128
}

#[tactic(auto, using(ix_replay::proofs::Lengths::length_none, ix_replay::proofs::Lengths::length_some, ix_replay::proofs::Lengths::length_string))]
fn option_size(text: &Option<Bytes>) -> u128
    ensures size { result ≡ length (option string text.now) }
    ensures bound { result < 2 ^ 66 }
{
    match text {
        Some(text) => 1 + string_size(text.as_slice()),
        None => 1,
    }
}

#[tactic(auto, using(ix_replay::proofs::Lengths::length_kept))]
fn kept_size(kept: &Kept) -> u128
    ensures { result ≡ length (kept_bytes kept.now) }
{
    let names = string_size(kept.stanza.as_slice()) + string_size(kept.key.as_slice());
    1 + (names + string_size(kept.value.as_slice()))
}

/// How many bytes the item of the settings has, 2^128 - 1 where there are more. It takes no memory.
#[tactic(auto, using(ix_replay::proofs::Lengths::length_settings))]
pub fn settings_size(kept: &[Kept]) -> u128
    ensures { result ≡ capped (defs.settings_size kept.now) }
{
    let mut size: u128 = 5;
    for one in kept {
        size = size.saturating_add(kept_size(one));
    }
    size
}

/// How many bytes the item of an open channel has, but for those of its carry. It takes no memory.
#[tactic(auto, using(ix_replay::proofs::Lengths::length_channel))]
pub fn channel_size(name: &[u8], meta: &ChannelMeta) -> u128
    ensures size { result ≡ defs.channel_size (name.now, meta.now) }
    ensures bound { result < 2 ^ 69 }
{
    let texts = string_size(name) + string_size(meta.host.as_slice());
    let options = option_size(&meta.sourcetype) + option_size(&meta.index);
    5 + (texts + string_size(meta.source.as_slice())) + options
}

/// How many bytes the item of a spot has. It takes no memory.
#[tactic(auto, using(ix_replay::proofs::Lengths::length_spot))]
pub fn spot_size(spot: &Spot) -> u128
    ensures size { result ≡ defs.spot_size spot.now }
    ensures bound { result < 2 ^ 67 }
{
    9 + (string_size(spot.path.as_slice()) + string_size(spot.head.as_slice()))
}

impl Channels {
    /// No channel.
    pub fn none() -> Channels
        ensures { AreChannels [] result }
    {
        Channels { count: 0, size: 0 }
    }

    /// A channel.
    pub fn one(name: &[u8], meta: &ChannelMeta) -> Channels
        ensures { AreChannels ((name.now, meta.now) ∷ []) result }
    {
        Channels {
            count: 1,
            size: channel_size(name, meta),
        }
    }

    /// These and others behind them.
    pub fn and(self, others: Channels) -> Channels
        ensures { (xs ys : List (List ℕ × ChannelMeta)) → AreChannels xs self → AreChannels ys others → AreChannels (xs ++ ys) result }
    {
        Channels {
            count: self.count.saturating_add(others.count),
            size: self.size.saturating_add(others.size),
        }
    }
}

impl Spots {
    /// No spot.
    pub fn none() -> Spots
        ensures { AreSpots [] result }
    {
        Spots {
            within: true,
            size: 0,
        }
    }

    /// A spot.
    pub fn one(spot: &Spot) -> Spots
        ensures { AreSpots (spot.now ∷ []) result }
    {
        Spots {
            within: spot.offset < 1 << 63,
            size: spot_size(spot),
        }
    }

    /// These and others behind them.
    pub fn and(self, others: Spots) -> Spots
        ensures { (xs ys : List Spot) → AreSpots xs self → AreSpots ys others → AreSpots (xs ++ ys) result }
    {
        Spots {
            within: self.within && others.within,
            size: self.size.saturating_add(others.size),
        }
    }
}

/// The spots of a list, in sum. It takes no memory.
pub fn spots_of(spots: &[Spot]) -> Spots
    ensures { AreSpots spots.now result }
{
    let mut sum = Spots::none();
    for spot in spots {
        sum = sum.and(Spots::one(spot));
    }
    sum
}
