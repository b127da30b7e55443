//! The fields of items, put behind what stands in a list of bytes. Where there is no room, a part
//! of the field may stand there.

ghost use Rattle.std.specs.Prelude.{◌≡◌, ◌++◌, OnOk};
ghost use Rattle.ix_coding.specs.Spelling.{byte, eight, signed, string, IsShort};
ghost use Rattle.ix_coding.specs.Writing.{Extends};
ghost use Rattle.ix_items.specs.Spelling.{area_byte, state_byte, rule_byte, archive_number, file_bytes, kept_bytes, meta_bytes};
ghost use Rattle.ix_items.specs.Spelling.{bucket_bytes, entry_bytes, spot_bytes, IsKept, IsMeta};

use crate::items::{Bucket, Entry, Kept, Rule, State};
use ix_base::{Area, Bytes, ChannelMeta, File, NoMemory, Spot};
use ix_coding::{put_byte, put_i64, put_option, put_string, put_u64};

fn byte_of_area(area: Area) -> u8
    ensures { result ≡ area_byte area }
{
    match area {
        Area::Meta => 1,
        Area::Home => 2,
        Area::Cold => 3,
        Area::Frozen => 4,
        Area::Thawed => 5,
    }
}

fn byte_of_state(state: State) -> u8
    ensures { result ≡ state_byte state }
{
    match state {
        State::Hot => 1,
        State::Quarantine => 2,
        State::Warm => 3,
        State::Cold => 4,
        State::Thawed => 5,
    }
}

fn byte_of_rule(rule: Rule) -> u8
    ensures { result ≡ rule_byte rule }
{
    match rule {
        Rule::Age => 1,
        Rule::Cold => 2,
        Rule::Total => 3,
    }
}

fn number_of_archive(archive: Option<u64>) -> u64
    ensures { result ≡ archive_number archive }
{
    archive.unwrap_or(0)
}

pub fn put_file(file: File, out: &mut Bytes) -> Result<(), NoMemory>
    ensures ok { OnOk result (out.new ≡ out.old ++ file_bytes file) }
    ensures begun { Extends out.old out.new }
{
    put_byte(byte_of_area(file.area), out)?;
    put_u64(file.number, out)?;
    Ok(())
}

pub fn put_kept(kept: &Kept, out: &mut Bytes) -> Result<(), NoMemory>
    requires { IsKept kept.now }
    ensures ok { OnOk result (out.new ≡ out.old ++ kept_bytes kept.now) }
    ensures begun { Extends out.old out.new }
{
    put_byte(kept.file, out)?;
    put_string(kept.stanza.as_slice(), out)?;
    put_string(kept.key.as_slice(), out)?;
    put_string(kept.value.as_slice(), out)?;
    Ok(())
}

#[tactic(auto, unfolding(crate::specs::Spelling::meta_bytes))]
pub fn put_meta(meta: &ChannelMeta, out: &mut Bytes) -> Result<(), NoMemory>
    requires { IsMeta meta.now }
    ensures ok { OnOk result (out.new ≡ out.old ++ meta_bytes meta.now) }
    ensures begun { Extends out.old out.new }
{
    put_string(meta.host.as_slice(), out)?;
    put_string(meta.source.as_slice(), out)?;
    put_option(&meta.sourcetype, out)?;
    put_option(&meta.index, out)?;
    Ok(())
}

fn put_bucket_size(bucket: &Bucket, out: &mut Bytes) -> Result<(), NoMemory>
    ensures ok { OnOk result (out.new ≡ out.old ++ (eight bucket.now.id ++ byte (state_byte bucket.now.state) ++ file_bytes bucket.now.file
        ++ eight bucket.now.bytes ++ eight bucket.now.count)) }
    ensures begun { Extends out.old out.new }
{
    put_u64(bucket.id, out)?;
    put_byte(byte_of_state(bucket.state), out)?;
    put_file(bucket.file, out)?;
    put_u64(bucket.bytes, out)?;
    put_u64(bucket.count, out)?;
    Ok(())
}

fn put_bucket_times(bucket: &Bucket, out: &mut Bytes) -> Result<(), NoMemory>
    ensures ok { OnOk result (out.new ≡ out.old ++ (signed bucket.now.newest ++ signed bucket.now.oldest ++ eight bucket.now.used
        ++ signed bucket.now.touched)) }
    ensures begun { Extends out.old out.new }
{
    put_i64(bucket.newest, out)?;
    put_i64(bucket.oldest, out)?;
    put_u64(bucket.used, out)?;
    put_i64(bucket.touched, out)?;
    Ok(())
}

#[tactic(auto, unfolding(crate::specs::Spelling::bucket_bytes))]
pub fn put_bucket(bucket: &Bucket, out: &mut Bytes) -> Result<(), NoMemory>
    ensures ok { OnOk result (out.new ≡ out.old ++ bucket_bytes bucket.now) }
    ensures begun { Extends out.old out.new }
{
    put_bucket_size(bucket, out)?;
    put_bucket_times(bucket, out)?;
    Ok(())
}

fn put_entry_name(entry: &Entry, out: &mut Bytes) -> Result<(), NoMemory>
    requires { IsShort entry.now.index }
    ensures ok { OnOk result (out.new ≡ out.old ++ (string entry.now.index ++ eight entry.now.id ++ byte (rule_byte entry.now.rule)
        ++ signed entry.now.moment)) }
    ensures begun { Extends out.old out.new }
{
    put_string(entry.index.as_slice(), out)?;
    put_u64(entry.id, out)?;
    put_byte(byte_of_rule(entry.rule), out)?;
    put_i64(entry.moment, out)?;
    Ok(())
}

fn put_entry_size(entry: &Entry, out: &mut Bytes) -> Result<(), NoMemory>
    ensures ok { OnOk result (out.new ≡ out.old ++ (eight entry.now.count ++ signed entry.now.newest ++ signed entry.now.oldest
        ++ eight entry.now.bytes ++ eight (archive_number entry.now.archive))) }
    ensures begun { Extends out.old out.new }
{
    put_u64(entry.count, out)?;
    put_i64(entry.newest, out)?;
    put_i64(entry.oldest, out)?;
    put_u64(entry.bytes, out)?;
    put_u64(number_of_archive(entry.archive), out)?;
    Ok(())
}

#[tactic(auto, unfolding(crate::specs::Spelling::entry_bytes))]
pub fn put_entry(entry: &Entry, out: &mut Bytes) -> Result<(), NoMemory>
    requires { IsShort entry.now.index }
    ensures ok { OnOk result (out.new ≡ out.old ++ entry_bytes entry.now) }
    ensures begun { Extends out.old out.new }
{
    put_entry_name(entry, out)?;
    put_entry_size(entry, out)?;
    Ok(())
}

#[tactic(auto, unfolding(crate::specs::Spelling::spot_bytes))]
pub fn put_spot(spot: &Spot, out: &mut Bytes) -> Result<(), NoMemory>
    requires path { IsShort spot.now.path }
    requires head { IsShort spot.now.head }
    ensures ok { OnOk result (out.new ≡ out.old ++ spot_bytes spot.now) }
    ensures begun { Extends out.old out.new }
{
    put_string(spot.path.as_slice(), out)?;
    put_string(spot.head.as_slice(), out)?;
    put_u64(spot.offset, out)?;
    Ok(())
}
