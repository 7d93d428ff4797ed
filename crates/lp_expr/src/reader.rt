ghost use Rattle.std.specs.Prelude.{◌≡◌, ◌<◌, Some, None, IfOk, OnOk, if◌then◌else◌};
ghost use Rattle.lp_text.specs.declared.shelf.TheConstants.{LIMIT};
ghost use Rattle.std.specs.Option.{option_map};
ghost use Rattle.lp_expr.specs.Machine.{start, ended_by, with_ended, closed_in, signed_in, with_last, waiting_for, with_part, begun, wanted, shut_in, on_sign_in, followed, on_longer_in, step_in, whole_in, finished};

use crate::bytes::{is_blank, is_inner, is_prefix, sign_at};
use crate::dialect::{Dialect, Mark, Mode, Part, Sign};
use lp_stack::Stack;
use lp_text::NoMemory;
use std::alloc::Global;
use std::marker::Model;

/// How loosely what ends at a closing parenthesis or at the text's end may bind.
const LOOSEST: u8 = 5;

/// A reader of one expression, which goes from byte to byte.
///
/// A step says whether the byte was taken. After a byte that was not taken it is of no use.
#[derive(Drop)]
pub(crate) struct Reader {
    last: Mode,
    waiting: Stack<Mark>,
    read: Vec<Part>,
}

impl Model for Reader {
    ghost use Rattle.lp_expr.specs.Machine.{Machine};

    ghost Value = { Machine };

    ghost view = { λ r. record { last = r.last; waiting = r.waiting; read = r.read.items } };
}

impl Reader {
    pub(crate) fn new(alloc: Global) -> Reader
        ensures { result ≡ start }
    {
        Reader {
            last: Mode::Want,
            waiting: Stack::new(alloc),
            read: Vec::new(alloc),
        }
    }

    fn set_last(&mut self, last: Mode)
        ensures { self.new ≡ with_last last self.old }
    {
        self.last = last;
    }

    fn wait_for(&mut self, mark: Mark) -> Result<(), NoMemory>
        ensures { OnOk result (self.new ≡ waiting_for mark self.old) }
    {
        self.waiting.push(mark)?;
        self.last = Mode::Want;
        Ok(())
    }

    fn add(&mut self, part: Part) -> Result<(), NoMemory>
        ensures { OnOk result (self.new ≡ with_part part self.old) }
    {
        self.read.push(part)?;
        self.last = Mode::Have(false);
        Ok(())
    }

    /// Ends the operands of all signs that bind as tightly or tighter.
    fn close(&mut self, dialect: Dialect, loosest: u8) -> Result<(), NoMemory>
        ensures { OnOk result (self.new ≡ closed_in dialect loosest self.old) }
    {
        while let Some(part) = self.ended(dialect, loosest) {
            self.end(part)?;
        }
        Ok(())
    }

    /// The part that ends first, where it binds as tightly or tighter.
    fn ended(&self, dialect: Dialect, loosest: u8) -> Option<Part>
        ensures { result ≡ ended_by dialect loosest self.now.waiting }
    {
        match self.waiting.top() {
            Some(Mark::Prefix) => Some(Part::Not),
            Some(Mark::Infix(sign)) if dialect.looseness(sign) <= loosest => Some(Part::Infix(
                sign,
            )),
            _ => None,
        }
    }

    /// Ends the part that waits for its operand.
    fn end(&mut self, part: Part) -> Result<(), NoMemory>
        ensures { OnOk result (self.new ≡ with_ended part self.old) }
    {
        self.read.push(part)?;
        let _ = self.waiting.pop();
        Ok(())
    }

    /// A sign behind an operand.
    fn sign(&mut self, dialect: Dialect, sign: Sign) -> Result<(), NoMemory>
        ensures { OnOk result (self.new ≡ signed_in dialect sign self.old) }
    {
        self.close(dialect, dialect.looseness(sign))?;
        self.wait_for(Mark::Infix(sign))
    }

    /// The first byte of an operand.
    fn begin(&mut self, dialect: Dialect, at: usize, byte: u8) -> Result<bool, NoMemory>
        requires { at < LIMIT }
        ensures { IfOk result (λ taken. begun dialect at byte self.old ≡ (if taken then Some self.new else None)) }
    {
        if is_inner(byte) {
            self.set_last(Mode::Name(at));
        } else if is_prefix(dialect, byte) {
            self.wait_for(Mark::Prefix)?;
        } else if byte == b'(' {
            self.wait_for(Mark::Open)?;
        } else if byte == b'"' && dialect.is_liberty() {
            self.set_last(Mode::Quoted(at + 1));
        } else {
            return Ok(false);
        }
        Ok(true)
    }

    /// A byte where an operand has to come.
    fn want(&mut self, dialect: Dialect, at: usize, byte: u8) -> Result<bool, NoMemory>
        requires { at < LIMIT }
        ensures { IfOk result (λ taken. wanted dialect at byte self.old ≡ (if taken then Some self.new else None)) }
    {
        if is_blank(byte) {
            self.set_last(Mode::Want);
            return Ok(true);
        }
        self.begin(dialect, at, byte)
    }

    /// A closing parenthesis, where all that it ends has ended.
    fn shut(&mut self) -> bool
        ensures { shut_in self.old ≡ (if result then Some self.new else None) }
    {
        match self.waiting.top() {
            Some(Mark::Open) => {
                let _ = self.waiting.pop();
                self.last = Mode::Have(false);
                true
            }
            _ => false,
        }
    }

    /// What is no blank, complement or parenthesis behind an operand.
    fn follow_sign(
        &mut self,
        dialect: Dialect,
        at: usize,
        byte: u8,
        spaced: bool,
        sign: Option<Sign>,
    ) -> Result<bool, NoMemory>
        requires { at < LIMIT }
        ensures { IfOk result (λ taken. on_sign_in dialect at byte spaced self.old sign ≡ (if taken then Some self.new else None)) }
    {
        match sign {
            Some(sign) => {
                if dialect.is_half(sign) {
                    self.set_last(Mode::Half(sign));
                } else {
                    self.sign(dialect, sign)?;
                }
                Ok(true)
            }
            None => {
                if spaced && dialect.is_liberty() {
                    self.sign(dialect, Sign::Gap)?;
                    return self.begin(dialect, at, byte);
                }
                Ok(false)
            }
        }
    }

    /// A byte behind an operand.
    fn follow(
        &mut self,
        dialect: Dialect,
        at: usize,
        byte: u8,
        spaced: bool,
    ) -> Result<bool, NoMemory>
        requires { at < LIMIT }
        ensures { IfOk result (λ taken. followed dialect at byte spaced self.old ≡ (if taken then Some self.new else None)) }
    {
        if is_blank(byte) {
            self.set_last(Mode::Have(true));
            return Ok(true);
        }
        if byte == b'\'' && dialect.is_liberty() {
            self.add(Part::Not)?;
            return Ok(true);
        }
        if byte == b')' {
            self.close(dialect, LOOSEST)?;
            return Ok(self.shut());
        }
        self.follow_sign(dialect, at, byte, spaced, sign_at(dialect, byte))
    }

    /// A byte right behind a sign that may go on.
    fn follow_half(
        &mut self,
        dialect: Dialect,
        at: usize,
        byte: u8,
        sign: Sign,
        longer: Option<Sign>,
    ) -> Result<bool, NoMemory>
        requires { at < LIMIT }
        ensures { IfOk result (λ taken. on_longer_in dialect at byte sign self.old longer ≡ (if taken then Some self.new else None)) }
    {
        match longer {
            Some(longer) => {
                self.sign(dialect, longer)?;
                Ok(true)
            }
            None => {
                self.sign(dialect, sign)?;
                self.want(dialect, at, byte)
            }
        }
    }

    /// Takes the next byte, whose number is `at`, or says that no expression goes on with it.
    pub(crate) fn step(&mut self, dialect: Dialect, at: usize, byte: u8) -> Result<bool, NoMemory>
        requires { at < LIMIT }
        ensures { IfOk result (λ taken. step_in dialect at byte self.old ≡ (if taken then Some self.new else None)) }
    {
        match self.last {
            Mode::Want => self.want(dialect, at, byte),
            Mode::Name(from) => {
                if is_inner(byte) {
                    return Ok(true);
                }
                self.add(Part::Plain(from, at))?;
                self.follow(dialect, at, byte, false)
            }
            Mode::Quoted(from) => {
                if is_inner(byte) {
                    return Ok(true);
                }
                if byte == b'"' && from < at {
                    self.add(Part::Quoted(from, at))?;
                    return Ok(true);
                }
                Ok(false)
            }
            Mode::Have(spaced) => self.follow(dialect, at, byte, spaced),
            Mode::Half(sign) => self.follow_half(
                dialect,
                at,
                byte,
                sign,
                dialect.longer(sign, byte),
            ),
        }
    }

    /// The parts in postfix order, none where the text may not end here.
    pub(crate) fn finish(
        mut self,
        dialect: Dialect,
        at: usize,
    ) -> Result<Option<Vec<Part>>, NoMemory>
        ensures { IfOk result (λ parts. finished dialect at self ≡ option_map (λ v. v.items) parts) }
    {
        match self.last {
            Mode::Name(from) => self.add(Part::Plain(from, at))?,
            Mode::Have(_) => (),
            Mode::Want | Mode::Quoted(_) | Mode::Half(_) => return Ok(None),
        }
        self.close(dialect, LOOSEST)?;
        if self.waiting.top().is_some() {
            return Ok(None);
        }
        Ok(Some(self.read))
    }
}
