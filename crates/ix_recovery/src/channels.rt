//! Open channels from what is carried of them. `recall` goes on with each of them by the settings
//! in force.

ghost use Rattle.std.specs.Prelude.{◌≡◌, Err, IfOk};
ghost use Rattle.std.specs.List.{AllZip, Any};
ghost use Rattle.ix_recovery.specs.Recalled.{IsResumed, AreResumed, IsBadChannel, HasBad};
ghost use Rattle.ix_store.specs.declared.faulty_item.FaultyItem.{FaultyItem};
ghost use Rattle.ix_store.specs.declared.faulty_item.FaultyItem.TheVariants as subjects;

use crate::faults::RecoveryFault;
use crate::gathering::Carried;
use crate::sorting::channels_by_name;
use ix_base::Bytes;
use ix_parse::{Channel, ResumeFault};
use ix_props::Props;
use ix_state::OpenChannel;
use ix_store::FaultyItem;
use std::alloc::Global;

/// The channel goes on, by the settings that are chosen for it.
fn resume_one(alloc: Global, props: &Props, carried: &Carried) -> Result<OpenChannel, RecoveryFault>
    ensures opened { IfOk result (λ opened. IsResumed props.now carried.now opened) }
    ensures bad { (subject : FaultyItem) → result ≡ Err (RecoveryFault.Bad subject) → IsBadChannel props.now subject carried.now }
{
    let name = carried.name.copy()?;
    if carried.meta.index.is_none() {
        return Err(bad_channel(name));
    }
    let stated = carried.meta.copy()?;
    let settings = props.settings(alloc, &carried.meta)?;
    match Channel::resume(alloc, settings, stated, carried.carry.as_slice()) {
        Ok(channel) => Ok(OpenChannel {
            name,
            meta: carried.meta.copy()?,
            channel,
        }),
        Err(ResumeFault::BadCarry) => Err(bad_channel(name)),
        Err(ResumeFault::NoMemory) => Err(RecoveryFault::NoMemory),
    }
}

/// The channel of this name cannot go on.
fn bad_channel(name: Bytes) -> RecoveryFault
    ensures { result ≡ RecoveryFault.Bad (subjects.Channel name) }
{
    RecoveryFault::Bad {
        subject: FaultyItem::Channel { name },
    }
}

/// All of them go on.
fn resume_all(
    alloc: Global,
    props: &Props,
    carried: &[Carried],
) -> Result<Vec<OpenChannel>, RecoveryFault>
    ensures opened { IfOk result (λ channels. AllZip (IsResumed props.now) carried.now channels.items) }
    ensures bad { (subject : FaultyItem) → result ≡ Err (RecoveryFault.Bad subject) → Any (IsBadChannel props.now subject) carried.now }
{
    let mut channels = Vec::new(alloc);
    for one in carried {
        let open = resume_one(alloc, props, one)?;
        channels.push(open)?;
    }
    Ok(channels)
}

/// The open channels, by the bytes of their names, go on from what is carried of them.
pub fn channels_of(
    alloc: Global,
    props: &Props,
    given: Vec<Carried>,
) -> Result<Vec<OpenChannel>, RecoveryFault>
    ensures opened { IfOk result (λ channels. AreResumed given.items props.now channels.items) }
    ensures bad { (subject : FaultyItem) → result ≡ Err (RecoveryFault.Bad subject) → HasBad given.items props.now subject }
{
    let sorted = channels_by_name(given);
    resume_all(alloc, props, sorted.as_slice())
}
