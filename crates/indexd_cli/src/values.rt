//! The values that words have: names, files, numbers and times. `orders.rt` reads the values of
//! each command by these.

ghost use Rattle.std.specs.Prelude.{◌≡◌, ◌≤◌, IfSome, option_map};
ghost use Rattle.std.specs.List.{list_all};
ghost use Rattle.std.specs.Char.{is_ascii_digit};
ghost use Rattle.indexd_cli.specs.Values.{is_name, name_of, is_file, file_of, is_number, number_in, behind_minus, is_time, seconds_of};

/// How many bytes a host, a source or a source type has at the most.
const LONGEST_NAME: usize = 1024;

#[tactic(auto, using(std::proofs::lemmas::Bool::Decides::nat_tests))]
fn is_name(text: &str) -> bool
    ensures { result ≡ is_name text.now }
{
    let len = text.len();
    1 <= len && len <= LONGEST_NAME
}

/// The text, where it has 1 to 1,024 bytes.
pub fn name_of(text: &str) -> Option<&str>
    ensures { option_map (λ s. s.now) result ≡ name_of text.now }
{
    if is_name(text) { Some(text) } else { None }
}

fn is_file(text: &str) -> bool
    ensures { result ≡ is_file text.now }
{
    match text {
        "props" | "transforms" | "indexes" | "inputs" | "zones" => true,
        _ => false,
    }
}

/// The text, where it is the name of a file of settings.
pub fn file_of(text: &str) -> Option<&str>
    ensures { option_map (λ s. s.now) result ≡ file_of text.now }
{
    if is_file(text) { Some(text) } else { None }
}

fn all_digits(bytes: &[u8]) -> bool
    ensures { result ≡ list_all is_ascii_digit bytes.now }
{
    bytes.iter().all(|b| b.is_ascii_digit())
}

#[tactic(auto, using(std::proofs::lemmas::Bool::Decides::nat_tests))]
fn is_number(text: &str) -> bool
    ensures { result ≡ is_number text.now }
{
    let bytes = text.as_bytes();
    1 <= bytes.len() && all_digits(bytes) && (bytes.len() == 1 || bytes[0] != b'0')
}

/// The number that a text writes in decimal digits, with no sign and no needless 0 before it, where
/// it lies from `least` to `most`.
#[tactic(auto, unfolding(crate::specs::Values::number_in))]
pub fn number_in(text: &str, least: u64, most: u64) -> Option<u64>
    ensures value { result ≡ number_in least most text.now }
    ensures most { IfSome result (λ n. n ≤ most) }
{
    if !is_number(text) {
        return None;
    }
    let number: u64 = text.parse().ok()?;
    if least <= number && number <= most {
        Some(number)
    } else {
        None
    }
}

/// What stands behind a minus, or all of the bytes.
fn behind_minus(bytes: &[u8]) -> &[u8]
    ensures { result.now ≡ behind_minus bytes.now }
{
    if !bytes.is_empty() && bytes[0] == b'-' {
        &bytes[1..]
    } else {
        bytes
    }
}

#[tactic(auto, using(std::proofs::lemmas::Bool::Decides::nat_tests))]
fn is_time(text: &str) -> bool
    ensures { result ≡ is_time text.now }
{
    let digits = behind_minus(text.as_bytes());
    1 <= digits.len() && digits.len() <= 11 && all_digits(digits)
}

/// The whole seconds that a text writes: a minus, or none, and 1 to 11 decimal digits.
#[tactic(auto, unfolding(crate::specs::Values::seconds_of))]
pub fn seconds_of(text: &str) -> Option<i64>
    ensures { result ≡ seconds_of text.now }
{
    if !is_time(text) {
        return None;
    }
    text.parse().ok()
}
