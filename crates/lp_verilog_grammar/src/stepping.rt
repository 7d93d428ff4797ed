ghost use Rattle.std.specs.Prelude.{◌≡◌, ◌++◌, length, IsTrue, OnOk};
ghost use Rattle.lp_verilog_grammar.specs.Machine.{perform, refusal, unread_at, is_bracket, settle, take_token, step, accepts, takes_value, awaiting, is_ending};
ghost use Rattle.lp_verilog_draft.specs.Verdicts.{Gives};

use crate::grammar::production_of;
use crate::reader::Reader;
use crate::symbol::{Action, Symbol};
use lp_model::Direction;
use lp_text::NoMemory;
use lp_verilog_draft::{Form, Off, Side, Stop};
use lp_verilog_tokens::{Mark, Token};
use std::alloc::Global;

fn takes_value(symbol: Symbol) -> bool
    ensures { result ≡ takes_value symbol }
{
    matches!(
        symbol,
        Symbol::Value | Symbol::NamedValue | Symbol::Connections
    )
}

fn unread_at(symbol: Symbol, side: Side) -> Off
    ensures { result ≡ unread_at symbol side }
{
    if takes_value(symbol) && !matches!(side, Side::Left) {
        Off::Unsupported
    } else {
        Off::Syntax
    }
}

/// Why a token cannot stand where a symbol has to come.
fn refusal(symbol: Symbol, side: Side, token: Token) -> Off
    ensures { result ≡ refusal symbol side token }
{
    match token {
        Token::Foreign => Off::Unsupported,
        Token::Unread | Token::Number(_) => unread_at(symbol, side),
        _ => Off::Syntax,
    }
}

fn is_bracket(token: Token) -> bool
    ensures { result ≡ is_bracket token }
{
    matches!(token, Token::Mark(Mark::OpenBracket))
}

impl Reader {
    /// What the token of a production does.
    fn perform(
        &mut self,
        alloc: Global,
        action: Action,
        token: Token,
        at: usize,
    ) -> Result<(), Stop>
        ensures { Gives result self.new (perform action token at self.old) }
    {
        match action {
            Action::Pass => Ok(()),
            Action::BeginModule => self.begin_module(alloc, token),
            Action::ListPort => self.list_port(at, token),
            Action::HeaderDirection => self.give_direction(Form::Header, token),
            Action::ItemDirection => self.give_direction(Form::Ports, token),
            Action::ItemWires => {
                self.declare_as(Form::Wires, Direction::Input);
                Ok(())
            }
            Action::Declare => self.declare_name(at, token),
            Action::EndModule => self.finish_module(alloc),
            Action::LeftBound => self.left_bound(token),
            Action::RightBound => self.right_bound(token),
            Action::Target => self.give_target(token),
            Action::BeginInstance => self.begin_instance(at, token),
            Action::ConnectionName => self.give_port(token),
            Action::StartValue => self.start_value(at, token),
            Action::Select => self.value.select(),
            Action::Index => self.give_index(token),
            Action::OneBit => self.value.one_bit(),
            Action::ManyBits => self.give_second(token),
            _ => self.perform_end(alloc, action, token, at),
        }
    }

    /// What the token of a production does that ends a part, or begins the first ordered connection.
    fn perform_end(
        &mut self,
        alloc: Global,
        action: Action,
        token: Token,
        at: usize,
    ) -> Result<(), Stop>
        requires { IsTrue (is_ending action) }
        ensures { Gives result self.new (perform action token at self.old) }
    {
        match action {
            Action::EndInstance => self.end_instance(alloc)?,
            Action::FirstOrdered => {
                self.joint.set_positional();
                self.start_value(at, token)?;
            }
            Action::NextOrdered => self.end_ordered(alloc)?,
            Action::LastOrdered => {
                self.end_ordered(alloc)?;
                self.end_instance(alloc)?;
            }
            Action::EndNamed => self.end_named(alloc)?,
            Action::BeginAssign => self.value.set_side(Side::Left),
            Action::EndLeft => self.end_left(alloc)?,
            Action::NextAssign => {
                self.end_assign(alloc)?;
                self.value.set_side(Side::Left);
            }
            Action::LastAssign => self.end_assign(alloc)?,
            _ => (),
        }
        Ok(())
    }

    /// A name that ends before this token is whole.
    fn settle(&mut self, token: Token) -> Result<(), NoMemory>
        ensures { OnOk result (self.new ≡ settle token self.old) }
    {
        if is_bracket(token) {
            return Ok(());
        }
        match self.waiting.top() {
            Some(Symbol::Tail) => {
                let _ = self.waiting.pop();
                self.value.push_whole()
            }
            _ => Ok(()),
        }
    }

    /// Puts symbols on the others, the first on top.
    fn wait_for(&mut self, symbols: &[Symbol]) -> Result<(), NoMemory>
        ensures { OnOk result (self.new ≡ awaiting symbols.now self.old) }
    {
        for k in 0..symbols.len() {
            self.waiting.push(symbols[symbols.len() - 1 - k])?;
        }
        Ok(())
    }

    fn take_token(&mut self, alloc: Global, token: Token, at: usize) -> Result<(), Stop>
        ensures { Gives result self.new (take_token token at self.old) }
    {
        match self.waiting.pop() {
            None => Err(Stop::Off(Off::Syntax)),
            Some(symbol) => match production_of(symbol, token) {
                None => Err(Stop::Off(refusal(symbol, self.value.side, token))),
                Some(production) => {
                    self.wait_for(production.follow)?;
                    self.perform(alloc, production.action, token, at)
                }
            },
        }
    }

    /// Takes the next token, whose first byte has this number.
    pub fn step(&mut self, alloc: Global, token: Token, at: usize) -> Result<(), Stop>
        ensures { Gives result self.new (step token at self.old) }
    {
        self.settle(token)?;
        self.take_token(alloc, token, at)
    }

    /// Whether the text may end here.
    pub fn accepts(&self) -> bool
        ensures { result ≡ accepts self.now }
    {
        matches!(self.waiting.top(), Some(Symbol::Source))
    }
}
