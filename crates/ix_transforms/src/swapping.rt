//! Bytes that become others. The changes by SEDCMD call it.

ghost use Rattle.std.specs.Prelude.{◌≡◌, ℕ, ◌<◌, length, map, slice_index};
ghost use Rattle.ix_transforms.specs.Seds.{swapped};

use ix_base::Bytes;

/// What each byte becomes: one that stands in `from`, at its first place there, the byte at that
/// place of `to`, and any other itself.
fn table(from: &[u8], to: &[u8]) -> [u8; 256]
    requires { length from.now ≡ length to.now }
    ensures { (b : ℕ) → b < 256 → slice_index result b ≡ swapped from.now to.now b }
{
    let mut becomes = [0u8; 256];
    for byte in 0..256 {
        becomes[byte] = byte as u8;
    }
    let mut at = from.len();
    while at > 0 {
        at -= 1;
        becomes[from[at] as usize] = to[at];
    }
    becomes
}

/// The bytes, each as what it becomes. It takes no memory.
pub fn swap_bytes(bytes: Bytes, from: &[u8], to: &[u8]) -> Bytes
    requires { length from.now ≡ length to.now }
    ensures { result ≡ map (swapped from.now to.now) bytes }
{
    let becomes = table(from, to);
    let mut items = bytes.into_vec();
    for at in 0..items.len() {
        items[at] = becomes[items[at] as usize];
    }
    Bytes::from_vec(items)
}
