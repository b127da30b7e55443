//! The steps of the reader, one for each token, from the last to the first.

ghost use Rattle.std.specs.Prelude.{◌≡◌, ◌+◌, ◌≤◌, IfOk};
ghost use Rattle.ix_pattern.specs.Run.{State};
ghost use Rattle.ix_pattern.specs.Syntax.{may_hold, opened};
ghost use Rattle.ix_pattern.specs.Frames.{IsReading, CanStep, Stepped};

use crate::frames::Frame;
use crate::reader::{Reader, empty, with_bar, with_leaf, with_parentheses};
use crate::tokens::{Leaf, Opening, Repeat, Token};
use ix_base::NoMemory;

/// Whether what is inside may stand there, given whether it has neither a group nor a lookahead.
fn may_hold(opening: Opening, plain: bool) -> bool
    ensures { result ≡ may_hold opening plain }
{
    match opening {
        Opening::Capture | Opening::Plain => true,
        Opening::Ahead { .. } => plain,
    }
}

/// How many capturing groups it opens.
fn opened(opening: Opening) -> usize
    ensures { result ≡ opened opening }
{
    match opening {
        Opening::Capture => 1,
        Opening::Plain | Opening::Ahead { .. } => 0,
    }
}

impl Reader {
    /// A piece that has none inside.
    fn leaf(&mut self, leaf: Leaf) -> Result<bool, NoMemory>
        requires { (st : State) × IsReading self.old st }
        ensures { IfOk result (λ going. Stepped (Token.Leaf leaf) going self.old self.new) }
    {
        self.here = with_leaf(&mut self.work, self.here, leaf)?;
        Ok(true)
    }

    /// `|`. No count may be waiting.
    fn bar(&mut self) -> Result<bool, NoMemory>
        requires { (st : State) × IsReading self.old st }
        ensures { IfOk result (λ going. Stepped Token.Bar going self.old self.new) }
    {
        if self.here.waiting.is_some() {
            return Ok(false);
        }
        self.here = with_bar(&mut self.work, self.here)?;
        Ok(true)
    }

    /// A count, where none is waiting.
    fn count(&mut self, repeat: Repeat) -> bool
        ensures { Stepped (Token.Count repeat) result self.old self.new }
    {
        if self.here.waiting.is_some() {
            return false;
        }
        self.here = Frame {
            waiting: Some(repeat),
            sequence: self.here.sequence,
            others: self.here.others,
            plain: self.here.plain,
            depth: self.here.depth,
            high: self.here.high,
        };
        true
    }

    /// `)`: an empty level begins, inside the one so far.
    fn close(&mut self) -> Result<bool, NoMemory>
        ensures { IfOk result (λ going. Stepped Token.Close going self.old self.new) }
    {
        self.outer.push(self.here)?;
        self.here = empty();
        Ok(true)
    }

    /// `(`, `(?:`, `(?=` or `(?!`: the innermost level becomes a piece of the one around it.
    fn open(&mut self, opening: Opening) -> Result<bool, NoMemory>
        requires reading { (st : State) × IsReading self.old st }
        requires can { CanStep (Token.Open opening) self.old }
        ensures { IfOk result (λ going. Stepped (Token.Open opening) going self.old self.new) }
    {
        if self.here.waiting.is_some() || !may_hold(opening, self.here.plain) {
            return Ok(false);
        }
        let Some(around) = self.outer.pop() else {
            return Ok(false);
        };
        self.here = with_parentheses(&mut self.work, around, opening, self.opened, self.here)?;
        self.opened -= opened(opening);
        Ok(true)
    }

    /// The next token, from the last to the first. False is an error of syntax.
    pub fn step(&mut self, token: Token) -> Result<bool, NoMemory>
        requires reading { (st : State) × IsReading self.old st }
        requires can { CanStep token self.old }
        ensures { IfOk result (λ going. Stepped token going self.old self.new) }
    {
        match token {
            Token::Leaf(leaf) => self.leaf(leaf),
            Token::Bar => self.bar(),
            Token::Count(repeat) => Ok(self.count(repeat)),
            Token::Close => self.close(),
            Token::Open(opening) => self.open(opening),
        }
    }
}
