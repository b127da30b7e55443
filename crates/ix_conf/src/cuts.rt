//! Pieces of bytes, lent.

ghost use Rattle.std.specs.Prelude.{◌≡◌, ◌+◌, ◌<◌, ◌≤◌, length, IfSome};
ghost use Rattle.std.specs.Option.{option_map, option_copied};
ghost use Rattle.ix_conf.specs.Lines.{cut_at, before_last, trim_front, trim_back, trimmed, begins_with, is_comment, without_mark, is_blank};

/// What stands before the first such byte, and what stands behind it.
pub fn cut_at(bytes: &[u8], byte: u8) -> Option<(&[u8], &[u8])>
    ensures parts { option_map (λ parts. (parts.0.now, parts.1.now)) result ≡ cut_at byte bytes.now }
    ensures len { IfSome result (λ parts. length parts.0.now + length parts.1.now + 1 ≡ length bytes.now) }
{
    for (at, b) in bytes.iter().enumerate() {
        if *b == byte {
            return Some((&bytes[..at], &bytes[at + 1..]));
        }
    }
    None
}

/// What stands before a last byte that is this one.
pub fn before_last(bytes: &[u8], byte: u8) -> Option<&[u8]>
    ensures front { option_copied result ≡ before_last byte bytes.now }
    ensures len { IfSome result (λ front. length front.now + 1 ≡ length bytes.now) }
{
    if !bytes.is_empty() && bytes[bytes.len() - 1] == byte {
        Some(&bytes[..bytes.len() - 1])
    } else {
        None
    }
}

fn is_blank(byte: u8) -> bool
    ensures { result ≡ is_blank byte }
{
    byte == b' ' || byte == b'\t'
}

/// Without the spaces and tabs in front.
pub fn trim_front(bytes: &[u8]) -> &[u8]
    ensures { result.now ≡ trim_front bytes.now }
{
    let mut rest = bytes;
    while !rest.is_empty() && is_blank(rest[0]) {
        rest = &rest[1..];
    }
    rest
}

fn trim_back(bytes: &[u8]) -> &[u8]
    ensures { result.now ≡ trim_back bytes.now }
{
    let mut rest = bytes;
    while !rest.is_empty() && is_blank(rest[rest.len() - 1]) {
        rest = &rest[..rest.len() - 1];
    }
    rest
}

/// Without the spaces and tabs at both ends.
pub fn trimmed(bytes: &[u8]) -> &[u8]
    ensures { result.now ≡ trimmed bytes.now }
{
    trim_back(trim_front(bytes))
}

/// Whether there is a `#` behind spaces and tabs.
pub fn is_comment(line: &[u8]) -> bool
    ensures { result ≡ is_comment line.now }
{
    let rest = trim_front(line);
    !rest.is_empty() && rest[0] == b'#'
}

const MARK: [u8; 3] = [0xEF, 0xBB, 0xBF];

/// Without a byte order mark in front.
pub fn without_mark(bytes: &[u8]) -> &[u8]
    ensures value { result.now ≡ without_mark bytes.now }
    ensures len { length result.now ≤ length bytes.now }
{
    if bytes.len() >= 3 && bytes[..3] == MARK[..] {
        &bytes[3..]
    } else {
        bytes
    }
}
