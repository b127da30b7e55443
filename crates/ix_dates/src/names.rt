//! Names of months and weekdays, in either case of their letters.

ghost use Rattle.std.specs.Prelude.{◌≡◌, ◌+◌, ◌<◌, ◌≤◌, IfSome, length, drop, get_or, []};
ghost use Rattle.ix_dates.specs.Text.{read_view, rest_view};
ghost use Rattle.ix_dates.specs.Names as Names;

/// The text behind a name that is given in lower case.
#[tactic(auto, unfolding(crate::specs::Names::behind_name))]
pub(crate) fn behind_name<'a>(name: &[u8], s: &'a [u8]) -> Option<&'a [u8]>
    ensures { rest_view result ≡ Names.behind_name name.now s.now }
{
    let [letter, letters @ ..] = name else {
        return Some(s);
    };
    let [byte, rest @ ..] = s else {
        return None;
    };
    if byte.to_ascii_lowercase() != *letter {
        return None;
    }
    behind_name(letters, rest)
}

/// The text behind a name, whole or its first three letters, the longer first.
#[tactic(auto, unfolding(crate::specs::Names::behind_either))]
fn behind_either<'a>(name: &[u8], s: &'a [u8]) -> Option<&'a [u8]>
    requires { 3 ≤ length name.now }
    ensures { rest_view result ≡ Names.behind_either name.now s.now }
{
    if let Some(rest) = behind_name(name, s) {
        return Some(rest);
    }
    behind_name(&name[..3], s)
}

/// A month, from 1.
#[tactic(auto, unfolding(crate::specs::Names::month))]
pub(crate) fn month(s: &[u8]) -> Option<(u8, &[u8])>
    ensures value { read_view result ≡ Names.month s.now }
    ensures low { IfSome result (λ p. 1 ≤ p.0) }
    ensures high { IfSome result (λ p. p.0 ≤ 12) }
{
    month_from(0, s)
}

/// The month, where those before this one stand not there; January has the place 0.
#[tactic(auto, using(crate::proofs::NameLemmas::none_left, crate::proofs::NameLemmas::one_left))]
fn month_from(place: u8, s: &[u8]) -> Option<(u8, &[u8])>
    requires { place ≤ 12 }
    ensures value { read_view result ≡ Names.first_name (drop place Names.month_names) (place + 1) s.now }
    ensures low { IfSome result (λ p. 1 ≤ p.0) }
    ensures high { IfSome result (λ p. p.0 ≤ 12) }
{
    if place == 12 {
        return None;
    }
    match behind_either(month_name(place), s) {
        Some(rest) => Some((place + 1, rest)),
        None => month_from(place + 1, s),
    }
}

fn month_name(place: u8) -> &'static [u8]
    requires { place < 12 }
    ensures name { result.now ≡ get_or Names.month_names place [] }
    ensures long { 3 ≤ length result.now }
{
    match place {
        0 => b"january",
        1 => b"february",
        2 => b"march",
        3 => b"april",
        4 => b"may",
        5 => b"june",
        6 => b"july",
        7 => b"august",
        8 => b"september",
        9 => b"october",
        10 => b"november",
        _ => b"december",
    }
}

/// A weekday, from 1 for Monday.
#[tactic(auto, unfolding(crate::specs::Names::weekday))]
pub(crate) fn weekday(s: &[u8]) -> Option<(u8, &[u8])>
    ensures { read_view result ≡ Names.weekday s.now }
{
    weekday_from(0, s)
}

/// The weekday, where those before this one stand not there; Monday has the place 0.
#[tactic(auto, using(crate::proofs::NameLemmas::none_left, crate::proofs::NameLemmas::one_left))]
fn weekday_from(place: u8, s: &[u8]) -> Option<(u8, &[u8])>
    requires { place ≤ 7 }
    ensures { read_view result ≡ Names.first_name (drop place Names.weekday_names) (place + 1) s.now }
{
    if place == 7 {
        return None;
    }
    match behind_either(weekday_name(place), s) {
        Some(rest) => Some((place + 1, rest)),
        None => weekday_from(place + 1, s),
    }
}

fn weekday_name(place: u8) -> &'static [u8]
    requires { place < 7 }
    ensures name { result.now ≡ get_or Names.weekday_names place [] }
    ensures long { 3 ≤ length result.now }
{
    match place {
        0 => b"monday",
        1 => b"tuesday",
        2 => b"wednesday",
        3 => b"thursday",
        4 => b"friday",
        5 => b"saturday",
        _ => b"sunday",
    }
}
