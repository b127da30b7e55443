//! Writing items.

ghost use Rattle.std.specs.Prelude.{◌≡◌, ◌++◌, OnOk, OnErr};
ghost use Rattle.ix_coding.specs.Spelling.{eight, signed, string, IsShort};
ghost use Rattle.ix_coding.specs.Writing.{Extends};
ghost use Rattle.std.specs.List.{AllByRecursion};
ghost use Rattle.ix_items.specs.Spelling.{item_bytes, kind_byte, field_bytes, meta_bytes, bucket_bytes, IsMeta, settings_bytes};
ghost use Rattle.ix_items.specs.Spelling.{files_bytes, IsWritable, IsKept};

use crate::items::{Bucket, FileList, Item, KeptList};
use crate::puts::{put_bucket, put_entry, put_file, put_kept, put_meta, put_spot};
use ix_base::{Bytes, ChannelMeta, NoMemory};
use ix_coding::{put_byte, put_i64, put_string, put_u32, put_u64};

#[tactic(auto, unfolding(crate::specs::Spelling::settings_bytes))]
fn put_settings(list: &KeptList, out: &mut Bytes) -> Result<(), NoMemory>
    requires short { IsShort list.now }
    requires kept { AllByRecursion IsKept list.now }
    ensures ok { OnOk result (out.new ≡ out.old ++ settings_bytes list.now) }
    ensures begun { Extends out.old out.new }
{
    put_u32(list.len() as u32, out)?;
    let settings = list.as_slice();
    for kept in settings {
        put_kept(kept, out)?;
    }
    Ok(())
}

#[tactic(auto, unfolding(crate::specs::Spelling::files_bytes))]
fn put_files(list: &FileList, out: &mut Bytes) -> Result<(), NoMemory>
    requires { IsShort list.now }
    ensures ok { OnOk result (out.new ≡ out.old ++ files_bytes list.now) }
    ensures begun { Extends out.old out.new }
{
    put_u32(list.len() as u32, out)?;
    let files = list.as_slice();
    for file in files {
        put_file(*file, out)?;
    }
    Ok(())
}

fn put_moments(last: i64, tick: i64, out: &mut Bytes) -> Result<(), NoMemory>
    ensures ok { OnOk result (out.new ≡ out.old ++ (signed last ++ signed tick)) }
    ensures begun { Extends out.old out.new }
{
    put_i64(last, out)?;
    put_i64(tick, out)?;
    Ok(())
}

fn put_channel(
    name: &Bytes,
    meta: &ChannelMeta,
    carry: &Bytes,
    out: &mut Bytes,
) -> Result<(), NoMemory>
    requires name { IsShort name.now }
    requires meta { IsMeta meta.now }
    requires carry { IsShort carry.now }
    ensures ok { OnOk result (out.new ≡ out.old ++ (string name.now ++ meta_bytes meta.now ++ string carry.now)) }
    ensures begun { Extends out.old out.new }
{
    put_string(name.as_slice(), out)?;
    put_meta(meta, out)?;
    put_string(carry.as_slice(), out)?;
    Ok(())
}

fn put_in_index(index: &Bytes, bucket: &Bucket, out: &mut Bytes) -> Result<(), NoMemory>
    requires { IsShort index.now }
    ensures ok { OnOk result (out.new ≡ out.old ++ (string index.now ++ bucket_bytes bucket.now)) }
    ensures begun { Extends out.old out.new }
{
    put_string(index.as_slice(), out)?;
    put_bucket(bucket, out)?;
    Ok(())
}

fn put_named(index: &Bytes, id: u64, out: &mut Bytes) -> Result<(), NoMemory>
    requires { IsShort index.now }
    ensures ok { OnOk result (out.new ≡ out.old ++ (string index.now ++ eight id)) }
    ensures begun { Extends out.old out.new }
{
    put_string(index.as_slice(), out)?;
    put_u64(id, out)?;
    Ok(())
}

fn put_counts(
    settled: u64,
    nulled: u64,
    dropped: u64,
    placed: u64,
    out: &mut Bytes,
) -> Result<(), NoMemory>
    ensures ok { OnOk result (out.new ≡ out.old ++ (eight settled ++ eight nulled ++ eight dropped ++ eight placed)) }
    ensures begun { Extends out.old out.new }
{
    put_u64(settled, out)?;
    put_u64(nulled, out)?;
    put_u64(dropped, out)?;
    put_u64(placed, out)?;
    Ok(())
}

fn kind_of(item: &Item) -> u8
    ensures { result ≡ kind_byte item.now }
{
    match item {
        Item::Settings { .. } => 1,
        Item::Run { .. } => 2,
        Item::Moments { .. } => 3,
        Item::Channel { .. } => 4,
        Item::Ended { .. } => 5,
        Item::Bucket { .. } => 6,
        Item::Gone { .. } => 7,
        Item::Ledger { .. } => 8,
        Item::Counts { .. } => 9,
        Item::Spot { .. } => 10,
        Item::NextFile { .. } => 11,
        Item::Removals { .. } => 12,
        Item::NextId { .. } => 13,
    }
}

/// Puts what stands behind the kind byte.
#[tactic(auto, unfolding(crate::specs::Spelling::field_bytes))]
fn put_fields(item: &Item, out: &mut Bytes) -> Result<(), NoMemory>
    requires { IsWritable item.now }
    ensures ok { OnOk result (out.new ≡ out.old ++ field_bytes item.now) }
    ensures begun { Extends out.old out.new }
{
    match item {
        Item::Settings { kept } => put_settings(kept, out),
        Item::Run { run } => put_u64(*run, out),
        Item::Moments { last, tick } => put_moments(*last, *tick, out),
        Item::Channel { name, meta, carry } => put_channel(name, meta, carry, out),
        Item::Ended { name } => put_string(name.as_slice(), out),
        Item::Bucket { index, bucket } => put_in_index(index, bucket, out),
        Item::Gone { index, id } => put_named(index, *id, out),
        Item::Ledger { entry } => put_entry(entry, out),
        Item::Counts {
            settled,
            nulled,
            dropped,
            placed,
        } => put_counts(*settled, *nulled, *dropped, *placed, out),
        Item::Spot { spot } => put_spot(spot, out),
        Item::NextFile { number } => put_u64(*number, out),
        Item::Removals { files } => put_files(files, out),
        Item::NextId { index, id } => put_named(index, *id, out),
    }
}

/// Puts the kind byte and what stands behind it.
#[tactic(auto, unfolding(crate::specs::Spelling::item_bytes))]
fn put_item(item: &Item, out: &mut Bytes) -> Result<(), NoMemory>
    requires { IsWritable item.now }
    ensures ok { OnOk result (out.new ≡ out.old ++ item_bytes item.now) }
    ensures begun { Extends out.old out.new }
{
    put_byte(kind_of(item), out)?;
    put_fields(item, out)?;
    Ok(())
}

/// Adds the item's bytes to `out`. Where there is no room for all of them, `out` is as it was.
pub fn write_item(item: &Item, out: &mut Bytes) -> Result<(), NoMemory>
    requires { IsWritable item.now }
    // All bytes of the item stand behind what stood there.
    ensures ok { OnOk result (out.new ≡ out.old ++ item_bytes item.now) }
    // Or nothing has changed.
    ensures err { OnErr result (out.new ≡ out.old) }
{
    let before = out.len();
    let done = put_item(item, out);
    if done.is_err() {
        out.truncate(before);
    }
    done
}
