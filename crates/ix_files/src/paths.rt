//! The segments of a path.

ghost use Rattle.std.specs.Prelude.{◌≡◌, ◌≤◌, length};
ghost use Rattle.ix_files.specs.Paths as defs;
ghost use Rattle.ix_files.specs.Sought.{has_star};

/// Where the last segment begins: behind the last slash.
fn segment_at(path: &[u8]) -> usize
    ensures at { result ≡ defs.segment_at path.now }
    ensures within { result ≤ length path.now }
{
    let mut at = path.len();
    while at > 0 && path[at - 1] != b'/' {
        at -= 1;
    }
    at
}

/// A path up to its last slash and with it, and what is behind it.
pub(crate) fn split(path: &[u8]) -> (&[u8], &[u8])
    ensures front { result.0.now ≡ defs.front_of path.now }
    ensures segment { result.1.now ≡ defs.segment_of path.now }
{
    path.split_at(segment_at(path))
}

/// The folder that a path stands in. That of the root is a slash alone.
pub(crate) fn folder_of(path: &[u8]) -> &[u8]
    ensures { result.now ≡ defs.folder_of path.now }
{
    let size = segment_at(path);
    let size = if size == 1 { 1 } else { size.saturating_sub(1) };
    &path[..size]
}

/// Whether a path has a `*`.
pub(crate) fn has_star(path: &[u8]) -> bool
    ensures { result ≡ has_star path.now }
{
    path.iter().any(|byte| *byte == b'*')
}
