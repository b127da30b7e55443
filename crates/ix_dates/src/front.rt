//! Short tests by which most places of a text are passed over, and most formats are not tried.

ghost use Rattle.std.specs.Prelude.{◌≡◌};
ghost use Rattle.ix_dates.specs.Front as Front;
ghost use Rattle.ix_dates.specs.Known.{PassesOver};

/// Whether a hyphen stands where one does behind a year.
#[inline(always)]
pub(crate) fn has_hyphen(s: &[u8]) -> bool
    ensures { result ≡ Front.has_hyphen s.now }
{
    matches!(s, [_, _, _, _, b'-', ..])
}

/// Whether a slash stands where one does behind a day or a month.
#[inline(always)]
pub(crate) fn has_slash(s: &[u8]) -> bool
    ensures { result ≡ Front.has_slash s.now }
{
    matches!(s, [_, b'/', ..] | [_, _, b'/', ..])
}

/// Whether a month's name begins with these letters, given in lower case.
fn is_month(first: u8, second: u8, third: u8) -> bool
    ensures { result ≡ Front.is_month first second third }
{
    match first {
        b'j' => (second == b'a' && third == b'n')
            || (second == b'u' && (third == b'n' || third == b'l')),
        b'f' => second == b'e' && third == b'b',
        b'm' => second == b'a' && (third == b'r' || third == b'y'),
        b'a' => (second == b'p' && third == b'r') || (second == b'u' && third == b'g'),
        b's' => second == b'e' && third == b'p',
        b'o' => second == b'c' && third == b't',
        b'n' => second == b'o' && third == b'v',
        b'd' => second == b'e' && third == b'c',
        _ => false,
    }
}

/// Whether it begins with the first three letters of a month's name.
#[inline(always)]
#[tactic(auto, unfolding(crate::specs::Front::has_month))]
pub(crate) fn has_month(s: &[u8]) -> bool
    ensures { result ≡ Front.has_month s.now }
{
    match s {
        [first, second, third, ..] => is_month(
            first.to_ascii_lowercase(),
            second.to_ascii_lowercase(),
            third.to_ascii_lowercase(),
        ),
        _ => false,
    }
}

/// Whether one of the formats may read at the front of a text.
#[inline(always)]
#[tactic(auto, unfolding(crate::specs::Front::may_begin))]
fn may_begin(s: &[u8]) -> bool
    ensures { result ≡ Front.may_begin s.now }
{
    let [first, ..] = s else {
        return false;
    };
    if first.is_ascii_digit() {
        has_slash(s) || has_hyphen(s)
    } else {
        has_month(s)
    }
}

#[tactic(auto, unfolding(crate::specs::Front::skip_quiet))]
fn skip(s: &[u8]) -> &[u8]
    ensures { result.now ≡ Front.skip_quiet s.now }
{
    let mut rest = s;
    while let [_, next @ ..] = rest {
        if may_begin(rest) {
            break;
        }
        rest = next;
    }
    rest
}

/// The text from a place on before which none of the formats reads at any place.
pub fn skip_quiet(s: &[u8]) -> &[u8]
    ensures { PassesOver s.now result.now }
{
    skip(s)
}
