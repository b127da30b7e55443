//! When the search for the first match in a text goes over from attempts at one place after the
//! other to a walk over the whole rest. `find` and the prepared search ask it before each attempt.

ghost use Rattle.std.specs.Prelude.{◌≡◌, ◌+◌, ◌-◌, ◌*◌, ◌/◌, ◌^◌, min, nat_lt};

use ix_pikevm::matcher_ref::Scratch;

/// At how many places attempts may follow threads for each byte that is left. A walk follows the
/// threads of all places at once, and it takes one for each time that what is left can be halved to
/// come to the first place with a match. So a text at which attempts are dear takes about as long
/// again, and never its length squared.
const TURNS: u64 = 16;

/// At how many more, so that a short text never comes to a walk.
const FREE: u64 = 4096;

/// Whether attempts have followed threads at more places than that. Attempts that die within a few
/// bytes never do, however many there are.
pub fn is_spent(room: &Scratch, left: usize) -> bool
    ensures { result ≡ nat_lt left ((room.now.main.stamp - 4096) / 16) }
{
    room.followed().saturating_sub(FREE) / TURNS > left as u64
}

/// How many turns attempts that try one way after the other may take at so many bytes.
pub fn turns_for(bytes: usize) -> u64
    ensures { result ≡ min (bytes * 16 + 4096) (2 ^ 64 - 1) }
{
    (bytes as u64).saturating_mul(TURNS).saturating_add(FREE)
}
