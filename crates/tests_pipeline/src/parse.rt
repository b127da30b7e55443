//! Tests of `ix_parse`.

ghost use Rattle.std.specs.Prelude.{◌≡◌, ◌<◌, IfOk, IsSome};
ghost use Rattle.ix_props.specs.Settings.{AreUsable};

use crate::said::{bytes_of, compare, merged, put, put_event};
use ix_base::{Bytes, ChannelMeta, NoMemory, Steps};
use ix_conf::Merged;
use ix_parse::{Channel, Routed, RoutedList};
use ix_props::{Props, Settings};
use std::alloc::Global;
use std::marker::Brand;
use std::sync::ledger::{Blank, Ledger};

/// Writes what events come to, with a bar behind each: of one that is kept its two moments, its fields with commas behind, and its
/// raw text.
fn note(text: &mut String, routed: RoutedList) {
    for to in routed.as_slice() {
        if let Routed::To(event) = to {
            put(text, event.time);
            put(text, " ");
            put(text, event.arrival);
            put(text, " ");
            put_event(text, event, ",");
        }
        put(text, "|");
    }
    drop(routed);
}

/// The texts of props.conf and of transforms.conf.
#[derive(Clone, Copy)]
struct Files {
    props: &'static str,
    transforms: &'static str,
}

/// What the entries of the files say. No text here has a fault.
fn loaded(
    alloc: Global,
    props: &Result<Merged, NoMemory>,
    transforms: &Result<Merged, NoMemory>,
    zones: &Result<Merged, NoMemory>,
) -> Result<Props, NoMemory> {
    if let Ok(props) = props
        && let Ok(transforms) = transforms
        && let Ok(zones) = zones
    {
        match Props::load(alloc, props, transforms, zones) {
            Ok(loaded) => Ok(loaded),
            Err(_) => Err(NoMemory),
        }
    } else {
        Err(NoMemory)
    }
}

fn props_of(alloc: Global, files: Files) -> Result<Props, NoMemory> {
    let props = merged(alloc, files.props);
    let transforms = merged(alloc, files.transforms);
    let zones = merged(alloc, "");
    let loaded = loaded(alloc, &props, &transforms, &zones);
    drop(zones);
    drop(transforms);
    drop(props);
    loaded
}

/// What a channel states.
fn meta_of(alloc: Global) -> ChannelMeta
    ensures { IsSome result.index }
{
    ChannelMeta {
        host: bytes_of(alloc, b"h"),
        source: bytes_of(alloc, b"s"),
        sourcetype: Some(bytes_of(alloc, b"t")),
        index: Some(bytes_of(alloc, b"i")),
    }
}

/// The settings of these files for the channel.
fn settings_of(alloc: Global, files: Files) -> Result<Settings, NoMemory>
    ensures { IfOk result (λ settings. AreUsable settings) }
{
    let props = props_of(alloc, files)?;
    let meta = meta_of(alloc);
    let settings = props.settings(alloc, &meta);
    drop(meta);
    drop(props);
    settings
}

/// A channel that has no byte yet, with the settings of these files.
fn channel_of(alloc: Global, files: Files) -> Result<Channel, NoMemory> {
    let settings = settings_of(alloc, files)?;
    Channel::start(alloc, settings, meta_of(alloc))
}

/// A channel that goes on from a carry.
fn channel_from(alloc: Global, files: Files, carry: &[u8]) -> Result<Channel, NoMemory> {
    let settings = settings_of(alloc, files)?;
    match Channel::resume(alloc, settings, meta_of(alloc), carry) {
        Ok(channel) => Ok(channel),
        Err(_) => Err(NoMemory),
    }
}

/// Lines are not merged, and cut at five bytes.
const SHORT: Files = Files {
    props: "SHOULD_LINEMERGE = false\nTRUNCATE = 5",
    transforms: "",
};

/// 2024-01-03T16:40:00Z.
const LATER: i64 = 1_704_300_000_000_000;

/// What is carried of a channel that has no byte yet.
fn first_carry(alloc: Global, files: Files) -> Result<Bytes, NoMemory> {
    let channel = channel_of(alloc, files)?;
    let carry = channel.carry();
    drop(channel);
    carry
}

/// Feeds a byte to the channel that goes on from a carry, adds what it settles, and answers what is carried then.
fn next_carry<L: Ledger>(
    alloc: Global,
    files: Files,
    carry: &[u8],
    byte: u8,
    text: &mut String,
    steps: &mut Steps<L>,
) -> Result<Bytes, NoMemory> {
    let channel = channel_from(alloc, files, carry)?;
    let fed = channel.fed(&[byte], LATER, steps);
    drop(channel);
    let (next, routed) = fed?;
    note(text, routed);
    let carry = next.carry();
    drop(next);
    carry
}

/// Adds what the end settles of the channel that goes on from a carry.
fn note_end(alloc: Global, files: Files, carry: &[u8], text: &mut String) -> Result<(), NoMemory> {
    let channel = channel_from(alloc, files, carry)?;
    let ended = channel.ended();
    drop(channel);
    note(text, ended?);
    Ok(())
}

/// Adds what a channel settles of a stream that is fed byte by byte and then closed, where it goes on from its carry behind each
/// byte.
fn carry_on<L: Ledger>(
    alloc: Global,
    files: Files,
    bytes: &[u8],
    text: &mut String,
    blank: Blank,
) -> Result<(), NoMemory>
    requires name { blank.name ≡ L.name }
    requires parts { blank.parts ≡ L.parts }
    requires some { 0 < blank.parts }
{
    let mut carry = first_carry(alloc, files)?;
    let mut steps = Steps::<L>::new(blank);
    for byte in bytes {
        carry = next_carry(alloc, files, carry.as_slice(), *byte, text, &mut steps)?;
    }
    let noted = note_end(alloc, files, carry.as_slice(), text);
    drop(carry);
    noted
}

/// What is settled of the stream, counted in a ledger of its own.
fn carried(alloc: Global, files: Files, stream: &str) -> String {
    let mut text = String::new(alloc);
    let bytes = stream.as_bytes();
    if carry_on::<Brand>(alloc, files, bytes, &mut text, Blank::new(1)).is_err() {
        put(&mut text, "no memory");
    }
    text
}

const CUT_AT_FIVE: &str =
    "1704300000000000 1704300000000000 i,h,s,t,,ab|1704300000000000 1704300000000000 i,h,s,t,,longe|1704300000000000 1704300000000000 i,h,s,t,,e|";

#[test]
fn events_have_the_fields_of_the_channel(rt: HostRuntime) {
    let text = carried(rt.alloc(), SHORT, "ab\nlonger\ne");
    compare(&rt, text, CUT_AT_FIVE);
}

/// Merged by dates, and by a pattern.
const DATED: Files = Files {
    props: "BREAK_ONLY_BEFORE = ^end\nTRANSFORMS-drop = drop",
    transforms: "[drop]\nREGEX = debug\nDEST_KEY = queue\nFORMAT = nullQueue",
};

const TIME_OF_THE_DROPPED: &str =
    "1699999801000000 1704300000000000 i,h,s,t,,2023-11-14 22:10:01 start\n at a||1699999805000000 1704300000000000 i,h,s,t,,end\n at c|";

#[test]
fn an_event_takes_the_time_of_one_that_was_dropped(rt: HostRuntime) {
    let stream =
        "2023-11-14 22:10:01 start\n at a\r\n2023-11-14 22:10:05 debug\n at b\n\nend\n at c\n";
    compare(&rt, carried(rt.alloc(), DATED, stream), TIME_OF_THE_DROPPED);
}

/// Held back, out of room, and forced.
const HELD: Files = Files {
    props: "MAX_EVENTS = 3\nBREAK_ONLY_BEFORE = ^L\nMUST_NOT_BREAK_AFTER = ^BEGIN\nMUST_BREAK_AFTER = ^END",
    transforms: "",
};

const THREE_LINES_AT_MOST: &str =
    "1704300000000000 1704300000000000 i,h,s,t,,L1\nx\nBEGIN|1704300000000000 1704300000000000 i,h,s,t,,L2\nL3\nEND|1704300000000000 1704300000000000 i,h,s,t,,m|1704300000000000 1704300000000000 i,h,s,t,,L4|";

#[test]
fn marks_are_carried(rt: HostRuntime) {
    let text = carried(rt.alloc(), HELD, "L1\nx\nBEGIN\nL2\nL3\nEND\nm\nL4");
    compare(&rt, text, THREE_LINES_AT_MOST);
}
