//! How long the body of a request is, as its head tells it. It is told so that a connection can be
//! closed at once behind a request of which nothing is left. Where a head says it in any odd way it
//! is not told, and the peer is listened to for a while.

/// The name of the header line that has the length, in lower case.
const LENGTH: &[u8] = b"content-length";

/// The name of the header line with which a body is delimited otherwise.
const ENCODING: &[u8] = b"transfer-encoding";

/// What a header line is, as far as its name has come.
#[derive(Clone, Copy, Debug)]
struct Name {
    /// So many bytes of it have come.
    count: usize,
    may_be_length: bool,
    may_be_encoding: bool,
}

/// Where the bytes of a value belong.
#[derive(Clone, Copy, Debug, PartialEq, Eq)]
enum Value {
    /// To another line than that of the length.
    Other,
    /// They are spaces before the length.
    Before,
    /// They are its digits.
    Digits,
    /// They are spaces behind it.
    Behind,
}

/// The length, as far as the head has come.
#[derive(Clone, Copy, Debug)]
pub(crate) struct Extent {
    name: Name,
    value: Value,
    /// Whether there was a length.
    is_given: bool,
    /// The length; 0 where there was none, and `None` where it is not told.
    length: Option<u64>,
}

/// Whether a name that has come up to this byte goes on as that one does.
fn goes_on(wanted: &[u8], count: usize, byte: u8) -> bool {
    match wanted.get(count) {
        Some(next) => *next == byte,
        None => false,
    }
}

/// The number with one digit more, where that can be told.
fn with_digit(number: Option<u64>, byte: u8) -> Option<u64> {
    let digit = byte.checked_sub(b'0')?;
    if digit > 9 {
        return None;
    }
    number?.checked_mul(10)?.checked_add(digit as u64)
}

impl Name {
    /// Nothing has come.
    fn new() -> Self {
        Name {
            count: 0,
            may_be_length: true,
            may_be_encoding: true,
        }
    }

    /// This byte comes next.
    fn add(&mut self, byte: u8) {
        let byte = byte.to_ascii_lowercase();
        self.may_be_length = self.may_be_length && goes_on(LENGTH, self.count, byte);
        self.may_be_encoding = self.may_be_encoding && goes_on(ENCODING, self.count, byte);
        self.count = self.count.saturating_add(1);
    }

    fn is_length(&self) -> bool {
        self.may_be_length && self.count == LENGTH.len()
    }

    fn is_encoding(&self) -> bool {
        self.may_be_encoding && self.count == ENCODING.len()
    }
}

impl Extent {
    /// Nothing has come.
    pub(crate) fn new() -> Self {
        Extent {
            name: Name::new(),
            value: Value::Other,
            is_given: false,
            length: Some(0),
        }
    }

    /// The length of the body, where the head tells it.
    pub(crate) fn length(&self) -> Option<u64> {
        self.length
    }

    /// This byte of the name of a header line comes next.
    pub(crate) fn add_name(&mut self, byte: u8) {
        self.name.add(byte);
    }

    /// The name ends.
    pub(crate) fn end_name(&mut self) {
        let name = self.name;
        self.name = Name::new();
        self.value = Value::Other;
        if name.is_encoding() || name.is_length() && self.is_given {
            self.length = None;
        } else if name.is_length() {
            self.is_given = true;
            self.value = Value::Before;
        }
    }

    /// This byte of the value comes next.
    pub(crate) fn add_value(&mut self, byte: u8) {
        let is_space = byte == b' ' || byte == b'\t';
        match self.value {
            Value::Other => {}
            Value::Before if is_space => {}
            Value::Digits | Value::Behind if is_space => self.value = Value::Behind,
            Value::Before | Value::Digits => {
                self.value = Value::Digits;
                self.length = with_digit(self.length, byte);
            }
            Value::Behind => self.length = None,
        }
    }

    /// The value ends.
    pub(crate) fn end_value(&mut self) {
        if self.value == Value::Before {
            self.length = None;
        }
        self.value = Value::Other;
    }
}
