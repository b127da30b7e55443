//! Open channels as items, each with what is carried of its stream.

ghost use Rattle.std.specs.Prelude.{IfOk, OnOk};
ghost use Rattle.ix_recovery.specs.Putting.{IsSaid, AreSaid};

use ix_base::{NoMemory, Sequence};
use ix_items::Item;
use ix_state::OpenChannel;

/// What is said of an open channel.
fn channel_item(found: &OpenChannel) -> Result<Item, NoMemory>
    ensures { IfOk result (IsSaid found.now) }
{
    let carry = found.channel.carry()?;
    let name = found.name.copy()?;
    let meta = found.meta.copy()?;
    Ok(Item::Channel { name, meta, carry })
}

/// Puts the open channels.
pub(crate) fn put_channels(opens: &[OpenChannel], said: &mut Sequence<Item>) -> Result<(), NoMemory>
    ensures { OnOk result (AreSaid opens.now said.old said.new) }
{
    for found in opens {
        said.push(channel_item(found)?)?;
    }
    Ok(())
}
