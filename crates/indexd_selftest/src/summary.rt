//! The text of a selftest.

ghost use Rattle.std.specs.Prelude.{◌≡◌, ◌++◌, decimal, Err, IfOk, OnOk};
ghost use Rattle.ix_model.specs.declared.commands.Command.TheVariants.{Configure};
ghost use Rattle.ix_model.specs.declared.commands.Config.{Config};
ghost use Rattle.ix_serve.specs.Taking.{TakesAsks};
ghost use Rattle.ix_state.specs.Configs.{IsConfig};
ghost use Rattle.indexd_selftest.specs.Full.{HasNoRoomAtAll};
ghost use Rattle.indexd_selftest.specs.History as defs;

use crate::fault::SelftestFault;
use crate::filling::{fill, list};
use itoa::Buffer;
use ix_base::{Bytes, FailPlan, NoMemory};
use ix_disk::MemDisk;
use ix_items::{Kept, KeptList};
use ix_model::Config;
use ix_state::{ConfigFault, config_of};
use ix_store::Listing;
use std::alloc::Global;

/// The number of indexes.conf among the files of settings.
const INDEXES: u8 = 3;

/// An entry of the stanza `main`.
fn of_main(alloc: Global, key: &[u8], value: &[u8]) -> Result<Kept, NoMemory>
    ensures { IfOk result (λ kept. kept ≡ defs.of_main key.now value.now) }
{
    Ok(Kept {
        file: INDEXES,
        stanza: Bytes::copy_of(alloc, b"main")?,
        key: Bytes::copy_of(alloc, key)?,
        value: Bytes::copy_of(alloc, value)?,
    })
}

/// The settings as they are kept: buckets of 1 MiB, and 2 MiB in all.
fn kept_settings(alloc: Global) -> Result<KeptList, NoMemory>
    ensures { IfOk result (λ kept. kept ≡ defs.settings) }
{
    let mut kept = KeptList::new(alloc);
    kept.push(of_main(alloc, b"", b"")?)?;
    kept.push(of_main(alloc, b"maxDataSize", b"1")?)?;
    kept.push(of_main(alloc, b"maxTotalDataSizeMB", b"2")?)?;
    Ok(kept)
}

/// The settings. They are always sound.
fn settings(alloc: Global) -> Result<Config, SelftestFault>
    ensures ok { IfOk result defs.AreInForce }
    ensures sound { result ≡ Err SelftestFault.Full → ⊥ }
{
    let kept = kept_settings(alloc)?;
    match config_of(alloc, kept) {
        Ok(config) => Ok(config),
        Err(ConfigFault::NoMemory) => Err(SelftestFault::NoMemory),
        Err(ConfigFault::Unsound) => Err(SelftestFault::Full),
    }
}

/// Adds a number.
fn add_number(text: &mut Bytes, number: u64) -> Result<(), NoMemory>
    ensures { OnOk result (text.new ≡ text.old ++ decimal number) }
{
    let mut buffer = Buffer::new();
    text.extend(buffer.format(number).as_bytes())
}

/// The first line of the text.
fn first_line(alloc: Global, seed: u64, count: u64) -> Result<Bytes, NoMemory>
    ensures { IfOk result (λ line. line ≡ defs.first_line seed count) }
{
    let mut line = Bytes::copy_of(alloc, b"selftest ")?;
    add_number(&mut line, seed)?;
    line.extend(b" ")?;
    add_number(&mut line, count)?;
    line.extend(b"\n")?;
    Ok(line)
}

/// Makes a store on an empty disk in memory, sends it so many lines as the seed cuts them into
/// blocks, through requests, gives it a turn of housekeeping, makes its log short, mounts it again,
/// and answers the listing of that store behind the line `selftest SEED COUNT`. It takes memory for
/// all that is stored, and nothing else of the machine.
pub fn selftest<M: Listing + Drop>(
    alloc: Global,
    seed: u64,
    count: u64,
) -> Result<Bytes, SelftestFault>
    // What a selftest gives may be given to the store.
    requires settings { (config : Config) → IsConfig config → M.takes (defs.sent (Configure config)) }
    requires asks { TakesAsks M.takes }
    // The listing is that of the state behind just these commands.
    ensures summary { IfOk result (λ text. defs.IsSummary M.is_chooser seed count text) }
    // `Full` comes only where the store has no room for one of them, or for one of its two runs.
    // Want of memory may come at any time.
    ensures full { result ≡ Err SelftestFault.Full → HasNoRoomAtAll M.is_chooser M.Book.fits seed count }
{
    let config = settings(alloc)?;
    let mut disk = MemDisk::new(alloc, FailPlan::none(alloc));
    fill::<M, MemDisk>(alloc, &mut disk, config, seed, count)?;
    let listed = list::<M, MemDisk>(alloc, &mut disk)?;
    let mut text = first_line(alloc, seed, count)?;
    text.extend(listed.as_slice())?;
    Ok(text)
}
