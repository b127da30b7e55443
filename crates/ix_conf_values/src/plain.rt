//! Plain values: booleans and numbers.

ghost use Rattle.std.specs.Prelude.{◌≡◌, ◌≤◌, ◌<◌, ◌^◌, ◌*◌, ◌+◌, pos, ◌≤ℤ◌, IfSome, length};
ghost use Rattle.std.specs.Str.{str_eq_ignore_ascii_case};
ghost use Rattle.ix_conf_values.specs.Plain.{is_true_word, is_false_word, boolean, more_digits, digits, number, number_in, count_in};

/// Whether the text is this word, in either case of its letters.
fn is_word(text: &[u8], word: &[u8]) -> bool
    ensures { result ≡ str_eq_ignore_ascii_case text.now word.now }
{
    text.eq_ignore_ascii_case(word)
}

fn is_true_word(text: &[u8]) -> bool
    ensures { result ≡ is_true_word text.now }
{
    is_word(text, b"true")
        | is_word(text, b"t")
        | is_word(text, b"yes")
        | is_word(text, b"y")
        | is_word(text, b"1")
}

fn is_false_word(text: &[u8]) -> bool
    ensures { result ≡ is_false_word text.now }
{
    is_word(text, b"false")
        | is_word(text, b"f")
        | is_word(text, b"no")
        | is_word(text, b"n")
        | is_word(text, b"0")
}

/// A boolean: `true`, `t`, `yes`, `y` or `1`, or `false`, `f`, `no`, `n` or `0`, in either case.
/// `None` for every other text.
pub fn read_boolean(text: &[u8]) -> Option<bool>
    ensures { result ≡ boolean text.now }
{
    if is_true_word(text) {
        Some(true)
    } else if is_false_word(text) {
        Some(false)
    } else {
        None
    }
}

/// What 1 to 10 decimal digits come to; `None` where another byte stands among them.
fn number_of(text: &[u8]) -> Option<u64>
    requires { length text.now ≤ 10 }
    ensures value { result ≡ more_digits 0 text.now }
    ensures bound { IfSome result (λ n. n < 10 ^ 10) }
{
    let mut number: u64 = 0;
    for byte in text {
        if !byte.is_ascii_digit() {
            return None;
        }
        number = number * 10 + u64::from(*byte - b'0');
    }
    Some(number)
}

/// What decimal digits come to: from one of them to `most`, at most 10, and nothing else.
pub fn read_digits(text: &[u8], most: usize) -> Option<u64>
    requires { most ≤ 10 }
    ensures value { result ≡ digits most text.now }
    ensures bound { IfSome result (λ n. n < 10 ^ 10) }
{
    if text.is_empty() || most < text.len() {
        return None;
    }
    number_of(text)
}

/// A number: a `-`, or none, and 1 to 10 decimal digits.
fn read_any_number(text: &[u8]) -> Option<i64>
    ensures { result ≡ number text.now }
{
    match text {
        [b'-', digits @ ..] => {
            let size = read_digits(digits, 10)?;
            Some(-(size as i64))
        }
        _ => {
            let size = read_digits(text, 10)?;
            Some(size as i64)
        }
    }
}

/// A number from `least` to `most`: a `-`, or none, and 1 to 10 decimal digits. `None` for every
/// other text.
pub fn read_number(text: &[u8], least: i64, most: i64) -> Option<i64>
    ensures value { result ≡ number_in least most text.now }
    ensures least { IfSome result (λ n. least ≤ℤ n) }
    ensures most { IfSome result (λ n. n ≤ℤ most) }
{
    let number = read_any_number(text)?;
    if least <= number && number <= most {
        Some(number)
    } else {
        None
    }
}

/// A number from `least` to `most`, written as any other. `None` for every other text.
pub fn read_count(text: &[u8], least: u32, most: u32) -> Option<u32>
    ensures value { result ≡ count_in least most text.now }
    ensures least { IfSome result (λ n. least ≤ n) }
    ensures most { IfSome result (λ n. n ≤ most) }
{
    let number = read_number(text, i64::from(least), i64::from(most))?;
    Some(number as u32)
}
