//! How a command changes the open channels in memory. It is worked out beside them, and the store
//! makes the change once the command stands.

ghost use Rattle.std.specs.Prelude.{◌≡◌, ◌<◌, vec_len};
ghost use Rattle.ix_catalog.specs.Lists.{update};
ghost use Rattle.ix_channels.specs.Changes.{HasRoom, changed, with_channel};

use crate::reserved_insert::ReservedInsert;
use ix_parse::Channel;
use ix_state::OpenChannel;

/// A change of the open channels.
#[derive(Drop)]
pub enum ChannelChange {
    /// There is none.
    Same,
    /// One more is open.
    Begun(ReservedInsert<OpenChannel>),
    /// The one at this place took bytes in.
    Fed { at: usize, channel: Channel },
    /// The one at this place ended.
    Ended { at: usize },
    /// All of them ended.
    AllEnded,
}

/// Puts a channel that took bytes in into its place.
fn replace(channels: &mut Vec<OpenChannel>, at: usize, channel: Channel)
    requires { at < vec_len channels.old }
    ensures { channels.new.items ≡ update at (with_channel channel) channels.old.items }
{
    let open = &mut channels[at];
    open.channel = channel;
}

impl ChannelChange {
    /// Makes the change. It takes no memory.
    pub fn install(self, channels: &mut Vec<OpenChannel>)
        requires { HasRoom self channels.old }
        ensures { channels.new.items ≡ changed self channels.old.items }
    {
        match self {
            ChannelChange::Same => {}
            ChannelChange::Begun(room) => room.put(channels),
            ChannelChange::Fed { at, channel } => replace(channels, at, channel),
            ChannelChange::Ended { at } => {
                channels.remove(at);
            }
            ChannelChange::AllEnded => channels.clear(),
        }
    }
}
