//! Patterns for names.

ghost use Rattle.std.specs.Prelude.{◌≡◌, ◌+◌, ◌<◌, ◌≤◌, ◌∷◌, ◌&&◌, ◌||◌, ◌↔◌, ℕ, true, false, IsTrue, List, [], length, replicate};
ghost use Rattle.std.specs.Prelude.{slice_index, slice_index_or, IfOk, IfErr};
ghost use Rattle.ix_conf.specs.Names.{same_byte, tokens, are_pattern, FitsRule, NameRule, RefusesName};
ghost use Rattle.ix_conf.specs.Walk.{may_pass, IsEither, IsBarred, IsOpened, EachLong, Ask, byte_then, bytes_then, Marks, MarksAll};
ghost use Rattle.ix_conf.specs.Walk.{MarksLead, Lead, is_end, never, walk, step, start, answer};

use crate::tokens::{NameFault, Token, are_pattern, read_tokens};
use ix_base::NoMemory;
use std::alloc::Global;
use std::collections::VecDeque;
use std::marker::Model;

/// In one pair of parentheses: at which places of the name the present alternative, and one behind
/// it, leads to the end.
#[derive(Drop)]
pub struct Level {
    leads: Vec<bool>,
    others: Vec<bool>,
}

fn same_byte(fold: bool, byte: u8, other: u8) -> bool
    ensures { result ≡ same_byte fold byte other }
{
    if fold {
        byte.eq_ignore_ascii_case(&other)
    } else {
        byte == other
    }
}

/// Asks for a byte before what was asked at each place.
pub(crate) fn ask_byte(marks: &mut [bool], name: &[u8], fold: bool, byte: u8)
    requires { length marks.old ≡ length name.now + 1 }
    ensures each { (i : ℕ) → i < length name.now → slice_index_or marks.new i
        false ≡ (same_byte fold byte (slice_index name.now i) && slice_index_or marks.old (i + 1) false) }
    ensures last { slice_index_or marks.new (length name.now) false ≡ false }
{
    for i in 0..name.len() {
        marks[i] = same_byte(fold, byte, name[i]) && marks[i + 1];
    }
    marks[name.len()] = false;
}

fn may_pass(slash: bool, byte: u8) -> bool
    ensures { result ≡ may_pass slash byte }
{
    slash || byte != b'/'
}

/// Asks for any bytes, with slashes or without, before what was asked at each place.
pub(crate) fn ask_bytes(marks: &mut [bool], name: &[u8], slash: bool)
    requires { length marks.old ≡ length name.now + 1 }
    ensures each { (i : ℕ) → i < length name.now → slice_index_or marks.new i false
        ≡ (slice_index_or marks.old i false || (may_pass slash (slice_index name.now i) && slice_index_or marks.new (i + 1) false)) }
    ensures last { slice_index_or marks.new (length name.now) false ≡ slice_index_or marks.old (length name.now) false }
{
    let mut at = name.len();
    while at > 0 {
        at -= 1;
        marks[at] = marks[at] || (may_pass(slash, name[at]) && marks[at + 1]);
    }
}

/// Where the one or the other was asked.
fn ask_either(marks: &mut [bool], others: &[bool])
    requires { length others.now ≡ length marks.old }
    ensures each { (i : ℕ) → i < length others.now → slice_index_or marks.new i
        false ≡ (slice_index_or marks.old i false || slice_index_or others.now i false) }
{
    for i in 0..others.len() {
        marks[i] = marks[i] || others[i];
    }
}

/// Where the present alternative of a level, or one behind it, leads on.
fn either(level: Level) -> Vec<bool>
    requires { length level.leads.items ≡ length level.others.items }
    ensures { IsEither level.others.items level.leads.items result.items }
{
    let Level { leads, mut others } = level;
    ask_either(&mut others, &leads);
    others
}

/// A `|` before the present alternative: another one begins, which leads to what is behind the
/// parentheses.
fn bar(alloc: Global, top: Level, below: &VecDeque<Level>) -> Result<Level, NoMemory>
    requires { length top.leads.items ≡ length top.others.items }
    ensures { IfOk result (λ level. IsBarred top below.now.items level) }
{
    match below.front() {
        None => Ok(top),
        Some(outer) => {
            let leads = outer.leads.to_vec(alloc)?;
            let others = either(top);
            Ok(Level { leads, others })
        }
    }
}

/// A `(` before the present alternative: the level is done, and each of its alternatives leads on
/// in the one around it.
fn open(top: Level, below: &mut VecDeque<Level>) -> Level
    requires { length top.leads.items ≡ length top.others.items }
    ensures { IsOpened top below.old.items result below.new.items }
{
    match below.pop_front() {
        None => top,
        Some(outer) => {
            let Level { leads: _, others } = outer;
            Level {
                leads: either(top),
                others,
            }
        }
    }
}

pub(crate) fn no_marks(alloc: Global, len: usize) -> Result<Vec<bool>, NoMemory>
    ensures { IfOk result (λ marks. marks.items ≡ replicate len false) }
{
    Ok(vec![in alloc; false; len]?)
}

/// A `)`: a level begins, whose alternatives lead to what is behind it.
fn close(alloc: Global, top: Level, below: &mut VecDeque<Level>) -> Result<Level, NoMemory>
    ensures { IfOk result (λ level. (level.leads.items ≡ top.leads.items)
        × (level.others.items ≡ replicate (length top.leads.items) false) × (below.new.items ≡ top ∷ below.old.items)) }
{
    let leads = top.leads.to_vec(alloc)?;
    let others = no_marks(alloc, leads.len())?;
    match below.push_front(top) {
        Ok(()) => Ok(Level { leads, others }),
        Err(_) => Err(NoMemory),
    }
}

/// A byte before the present alternative.
fn with_byte(top: Level, name: &[u8], fold: bool, byte: u8) -> Level
    requires { length top.leads.items ≡ length name.now + 1 }
    ensures leads { (ask : Ask) → Marks name.now ask top.leads.items → Marks name.now (byte_then fold byte ask) result.leads.items }
    ensures others { result.others ≡ top.others }
{
    let Level { mut leads, others } = top;
    ask_byte(&mut leads, name, fold, byte);
    Level { leads, others }
}

/// Any bytes, with slashes or without, before the present alternative.
fn with_bytes(top: Level, name: &[u8], slash: bool) -> Level
    requires { length top.leads.items ≡ length name.now + 1 }
    ensures leads { (ask : Ask) → Marks name.now ask top.leads.items → Marks name.now (bytes_then slash ask) result.leads.items }
    ensures others { result.others ≡ top.others }
{
    let Level { mut leads, others } = top;
    ask_bytes(&mut leads, name, slash);
    Level { leads, others }
}

/// Takes one token back: what is asked before it, from what is asked behind it.
fn step_back(
    alloc: Global,
    top: Level,
    below: &mut VecDeque<Level>,
    name: &[u8],
    fold: bool,
    token: Token,
) -> Result<Level, NoMemory>
    requires { EachLong (length name.now + 1) (top ∷ below.old.items) }
    ensures { IfOk result (λ level. (leads : List Lead) →
        MarksAll name.now leads (top ∷ below.old.items) → MarksAll name.now (step fold token leads) (level ∷ below.new.items)) }
{
    match token {
        Token::Bar => bar(alloc, top, below),
        Token::Open => Ok(open(top, below)),
        Token::Close => close(alloc, top, below),
        Token::Byte(byte) => Ok(with_byte(top, name, fold, byte)),
        Token::Star => Ok(with_bytes(top, name, false)),
        Token::Dots => Ok(with_bytes(top, name, true)),
    }
}

/// A level whose present alternative leads to the end of the name.
fn end_level(alloc: Global, name: &[u8]) -> Result<Level, NoMemory>
    ensures { IfOk result (λ level. MarksLead name.now (record { leads = is_end; others = never }) level) }
{
    let mut leads = no_marks(alloc, name.len())?;
    leads.push(true)?;
    let others = no_marks(alloc, leads.len())?;
    Ok(Level { leads, others })
}

/// Whether an alternative leads on from the front of the name.
fn leads_at_front(level: Level) -> bool
    requires leads { 0 < length level.leads.items }
    requires others { 0 < length level.others.items }
    ensures { result ≡ (slice_index_or level.others.items 0 false || slice_index_or level.leads.items 0 false) }
{
    let Level { leads, others } = level;
    others[0] || leads[0]
}

/// Whether the name leads to its end from its front.
fn leads_to_end(alloc: Global, tokens: &[Token], fold: bool, name: &[u8]) -> Result<bool, NoMemory>
    ensures { IfOk result (λ leads. leads ≡ answer (walk fold tokens.now start) name.now) }
{
    let mut below = VecDeque::new(alloc);
    below.push_front(end_level(alloc, name)?)?;
    let mut top = end_level(alloc, name)?;
    let mut at = tokens.len();
    while at > 0 {
        at -= 1;
        top = step_back(alloc, top, &mut below, name, fold, tokens[at])?;
    }
    Ok(leads_at_front(top))
}

/// A pattern for names, as `[host::..]` and `[source::..]` stanzas have it.
///
/// `...` fits any bytes, `*` any bytes but `/`, `|` stands between alternatives, `( )` groups them,
/// `\\\\` fits one backslash, and every other byte fits itself. Contracts see a pattern as its
/// tokens, and whether case is folded.
#[derive(Drop)]
pub struct NamePattern {
    tokens: Vec<Token>,
    fold: bool,
}

impl Model for NamePattern {
    ghost use Rattle.std.specs.Prelude.{◌≡◌, Some};
    ghost use Rattle.ix_conf.specs.Names.{NameRule, waiting};

    ghost Value = { NameRule };

    ghost view = { λ p. record { tokens = p.tokens.items; fold = p.fold } };

    ghost invariant = { λ p. waiting p.tokens.items ≡ Some 0 };
}

impl NamePattern {
    /// Reads a pattern. With `fold`, ASCII letters fit in either case.
    ///
    /// `BadPattern` comes exactly where parentheses do not pair, or a `(` is followed by `?`.
    pub fn read(alloc: Global, text: &[u8], fold: bool) -> Result<NamePattern, NameFault>
        ensures ok { IfOk result (λ pattern. (pattern ≡ record { tokens = tokens text.now; fold = fold })
            × IsTrue (are_pattern (tokens text.now))) }
        ensures err { IfErr result (λ fault. RefusesName fault (tokens text.now)) }
    {
        let tokens = read_tokens(alloc, text)?;
        if are_pattern(&tokens) {
            Ok(NamePattern { tokens, fold })
        } else {
            Err(NameFault::BadPattern)
        }
    }

    /// Whether the whole name fits.
    ///
    /// Each token of the pattern is held once against each place of the name, so the work grows
    /// with the product of both lengths, and the memory with that of the name and the deepest nest
    /// of parentheses.
    pub fn fits(&self, alloc: Global, name: &[u8]) -> Result<bool, NoMemory>
        ensures { IfOk result (λ fits. IsTrue fits ↔ FitsRule self.now name.now) }
    {
        leads_to_end(alloc, &self.tokens, self.fold, name)
    }
}
