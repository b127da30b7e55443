//! Where in a head its last byte stands. `judge` asks it of each byte, so that the whole is parsed
//! only where it may be decided.

ghost use Rattle.std.specs.Prelude.{◌≡◌, ◌==◌, true, []};
ghost use Rattle.std.specs.List.{list_any};
ghost use Rattle.httparse.specs.Grammar.{is_token_byte, is_uri_byte, is_value_byte};
ghost use Rattle.ix_heads.specs.Fronts.{Fronts, Grows, IsBlank};

/// The part of a head that its last byte belongs to.
#[derive(Clone, Copy, Debug)]
pub(crate) enum Part {
    /// Empty lines before the request line.
    Blank,
    /// A carriage return behind them.
    BlankReturn,
    Method,
    /// The space before a target.
    TargetStart,
    /// A target of ASCII.
    Target,
    /// A target with a byte above 127, which may be no UTF-8.
    WideTarget,
    /// So many of the bytes of a version that stand before its last digit.
    Version(u8),
    /// The last digit of a version.
    VersionEnd,
    /// A carriage return behind it.
    VersionReturn,
    /// The end of a line, behind which a header line or the last, empty one begins.
    LineStart,
    /// The carriage return of the empty line.
    LineReturn,
    /// The name of a header line.
    Name,
    /// Its value.
    Value,
    /// A carriage return behind it.
    ValueReturn,
    /// Something that no head has there.
    Stray,
}

/// What stands before the last digit of a version.
const VERSION: [u8; 7] = *b"HTTP/1.";

/// Reads a head byte by byte.
#[derive(Clone, Copy, Debug)]
pub(crate) struct Scan {
    part: Part,
    due: bool,
}

/// The scan goes on.
fn at(part: Part) -> Scan
    ensures { result.part ≡ part }
{
    Scan { part, due: false }
}

/// The bytes are to be parsed, and the scan goes on where they may become a head.
fn asked(part: Part) -> Scan
    ensures part { result.part ≡ part }
    ensures due { result.due ≡ true }
{
    Scan { part, due: true }
}

/// The bytes are to be parsed: no head has this byte here.
fn stray() -> Scan
    ensures part { result.part ≡ Part.Stray }
    ensures due { result.due ≡ true }
{
    asked(Part::Stray)
}

fn holds(bytes: &[u8], byte: u8) -> bool
    ensures { result ≡ list_any (λ b. b == byte) bytes.now }
{
    bytes.iter().any(|it| *it == byte)
}

/// Whether a byte may stand in a method or in the name of a header line.
#[tactic(auto, unfolding(httparse::specs::Grammar::is_token_byte))]
fn is_token(byte: u8) -> bool
    ensures { result ≡ is_token_byte byte }
{
    byte.is_ascii_alphanumeric() || holds(b"!#$%&'*+-.^_`|~", byte)
}

/// Whether a byte may stand in a target.
fn is_target(byte: u8) -> bool
    ensures { result ≡ is_uri_byte byte }
{
    byte > b' ' && byte != 127
}

/// Whether a byte may stand in the value of a header line.
fn is_value(byte: u8) -> bool
    ensures { result ≡ is_value_byte byte }
{
    byte == b'\t' || byte >= b' ' && byte != 127
}

#[tactic(auto, using(crate::proofs::ScanLemmas::blank_line, crate::proofs::ScanLemmas::blank_return, crate::proofs::ScanLemmas::method_begun, crate::proofs::ScanLemmas::strays))]
fn after_blank(byte: u8) -> Scan
    ensures { Grows Part.Blank byte result }
{
    if byte == b'\n' {
        at(Part::Blank)
    } else if byte == b'\r' {
        at(Part::BlankReturn)
    } else if is_token(byte) {
        at(Part::Method)
    } else {
        stray()
    }
}

#[tactic(auto, using(crate::proofs::ScanLemmas::blank_returned, crate::proofs::ScanLemmas::strays))]
fn after_blank_return(byte: u8) -> Scan
    ensures { Grows Part.BlankReturn byte result }
{
    if byte == b'\n' {
        at(Part::Blank)
    } else {
        stray()
    }
}

#[tactic(auto, using(crate::proofs::ScanLemmas::method_more, crate::proofs::ScanLemmas::method_ended, crate::proofs::ScanLemmas::strays))]
fn after_method(byte: u8) -> Scan
    ensures { Grows Part.Method byte result }
{
    if is_token(byte) {
        at(Part::Method)
    } else if byte == b' ' {
        at(Part::TargetStart)
    } else {
        stray()
    }
}

#[tactic(auto, using(crate::proofs::ScanLemmas::target_begun, crate::proofs::ScanLemmas::wide_begun, crate::proofs::ScanLemmas::strays))]
fn after_target_start(byte: u8) -> Scan
    ensures { Grows Part.TargetStart byte result }
{
    if !is_target(byte) {
        stray()
    } else if byte < 128 {
        at(Part::Target)
    } else {
        at(Part::WideTarget)
    }
}

#[tactic(auto, using(crate::proofs::ScanLemmas::target_ended, crate::proofs::ScanLemmas::target_on, crate::proofs::ScanLemmas::target_widened, crate::proofs::ScanLemmas::strays))]
fn after_target(byte: u8) -> Scan
    ensures { Grows Part.Target byte result }
{
    if byte == b' ' {
        at(Part::Version(0))
    } else if !is_target(byte) {
        stray()
    } else if byte < 128 {
        at(Part::Target)
    } else {
        at(Part::WideTarget)
    }
}

#[tactic(auto, using(crate::proofs::ScanLemmas::wide_ended, crate::proofs::ScanLemmas::wide_on, crate::proofs::ScanLemmas::strays))]
fn after_wide_target(byte: u8) -> Scan
    ensures { Grows Part.WideTarget byte result }
{
    if byte == b' ' {
        asked(Part::Version(0))
    } else if is_target(byte) {
        at(Part::WideTarget)
    } else {
        stray()
    }
}

#[tactic(auto, using(crate::proofs::ScanLemmas::version_on, crate::proofs::ScanLemmas::version_done, crate::proofs::ScanLemmas::strays))]
fn after_version(count: u8, byte: u8) -> Scan
    ensures { Grows (Part.Version count) byte result }
{
    if count < 7 && byte == VERSION[usize::from(count)] {
        at(Part::Version(count + 1))
    } else if count == 7 && (byte == b'0' || byte == b'1') {
        at(Part::VersionEnd)
    } else {
        stray()
    }
}

#[tactic(auto, using(crate::proofs::ScanLemmas::version_ended, crate::proofs::ScanLemmas::version_return, crate::proofs::ScanLemmas::strays))]
fn after_version_end(byte: u8) -> Scan
    ensures { Grows Part.VersionEnd byte result }
{
    if byte == b'\n' {
        at(Part::LineStart)
    } else if byte == b'\r' {
        at(Part::VersionReturn)
    } else {
        stray()
    }
}

#[tactic(auto, using(crate::proofs::ScanLemmas::version_returned, crate::proofs::ScanLemmas::strays))]
fn after_version_return(byte: u8) -> Scan
    ensures { Grows Part.VersionReturn byte result }
{
    if byte == b'\n' {
        at(Part::LineStart)
    } else {
        stray()
    }
}

/// Behind the end of a line. Where another one follows, the head is whole.
#[tactic(auto, using(crate::proofs::ScanLemmas::line_done, crate::proofs::ScanLemmas::line_return, crate::proofs::ScanLemmas::name_begun, crate::proofs::ScanLemmas::strays))]
fn after_line_start(byte: u8) -> Scan
    ensures { Grows Part.LineStart byte result }
{
    if byte == b'\n' {
        at(Part::LineStart)
    } else if byte == b'\r' {
        at(Part::LineReturn)
    } else if is_token(byte) {
        at(Part::Name)
    } else {
        stray()
    }
}

/// Behind the carriage return of the empty line. With the line feed the head is whole.
#[tactic(auto, using(crate::proofs::ScanLemmas::line_returned, crate::proofs::ScanLemmas::strays))]
fn after_line_return(byte: u8) -> Scan
    ensures { Grows Part.LineReturn byte result }
{
    if byte == b'\n' {
        at(Part::LineStart)
    } else {
        stray()
    }
}

#[tactic(auto, using(crate::proofs::ScanLemmas::name_on, crate::proofs::ScanLemmas::name_ended, crate::proofs::ScanLemmas::strays))]
fn after_name(byte: u8) -> Scan
    ensures { Grows Part.Name byte result }
{
    if is_token(byte) {
        at(Part::Name)
    } else if byte == b':' {
        at(Part::Value)
    } else {
        stray()
    }
}

#[tactic(auto, using(crate::proofs::ScanLemmas::value_on, crate::proofs::ScanLemmas::value_ended, crate::proofs::ScanLemmas::value_return, crate::proofs::ScanLemmas::strays))]
fn after_value(byte: u8) -> Scan
    ensures { Grows Part.Value byte result }
{
    if is_value(byte) {
        at(Part::Value)
    } else if byte == b'\n' {
        at(Part::LineStart)
    } else if byte == b'\r' {
        at(Part::ValueReturn)
    } else {
        stray()
    }
}

#[tactic(auto, using(crate::proofs::ScanLemmas::value_returned, crate::proofs::ScanLemmas::strays))]
fn after_value_return(byte: u8) -> Scan
    ensures { Grows Part.ValueReturn byte result }
{
    if byte == b'\n' {
        at(Part::LineStart)
    } else {
        stray()
    }
}

impl Scan {
    /// Before the first byte.
    pub(crate) fn new() -> Self
        ensures { Fronts result.part [] }
    {
        at(Part::Blank)
    }

    /// Whether each byte so far is one of a line end.
    pub(crate) fn is_blank(&self) -> bool
        ensures { result ≡ true → IsBlank self.now.part }
    {
        matches!(self.part, Part::Blank | Part::BlankReturn)
    }

    /// Whether the bytes so far are to be parsed: the last one is one too many, or the end of a
    /// target that may be no UTF-8.
    pub(crate) fn is_due(&self) -> bool
        ensures { result ≡ self.now.due }
    {
        self.due
    }

    /// Goes on by one byte.
    pub(crate) fn take(&mut self, byte: u8)
        ensures { Grows self.old.part byte self.new }
    {
        *self = match self.part {
            Part::Blank => after_blank(byte),
            Part::BlankReturn => after_blank_return(byte),
            Part::Method => after_method(byte),
            Part::TargetStart => after_target_start(byte),
            Part::Target => after_target(byte),
            Part::WideTarget => after_wide_target(byte),
            Part::Version(count) => after_version(count, byte),
            Part::VersionEnd => after_version_end(byte),
            Part::VersionReturn => after_version_return(byte),
            Part::LineStart => after_line_start(byte),
            Part::LineReturn => after_line_return(byte),
            Part::Name => after_name(byte),
            Part::Value => after_value(byte),
            Part::ValueReturn => after_value_return(byte),
            Part::Stray => stray(),
        };
    }
}
