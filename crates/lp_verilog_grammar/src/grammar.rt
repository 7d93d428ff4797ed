ghost use Rattle.std.specs.Prelude.{◌≡◌, []};
ghost use Rattle.std.specs.Option.{option_map};
ghost use Rattle.lp_verilog_grammar.specs.View.{production_view};
ghost use Rattle.lp_verilog_grammar.specs.Grammar.{rule, production, is_same_mark, on_mark, on_value, on_bound, on_source, on_module_name, on_header, on_ports, on_ports_more, on_port_name, on_header_more, on_header_port, on_declared, on_vector, on_declared_name, on_items, on_declared_more, on_instance_name, on_instance_more, on_connections, on_named_more, on_connection_name, on_named_value, on_named_end, on_ordered_more, on_tail, on_concat_more, on_index_more, on_assign_sign, on_assign_more};
ghost use Rattle.lp_verilog_grammar.specs.declared.symbol.Action.TheVariants as actions;

use crate::symbol::{Action, Symbol};
use lp_verilog_tokens::{Keyword, Mark, Token};

/// What a token does where a symbol has to come, and the symbols that follow it.
#[derive(Clone, Copy)]
pub(crate) struct Production {
    pub(crate) action: Action,
    pub(crate) follow: &'static [Symbol],
}

fn rule(action: Action, follow: &'static [Symbol]) -> Option<Production>
    ensures { option_map production_view result ≡ rule action follow.now }
{
    Some(Production { action, follow })
}

fn source(token: Token) -> Option<Production>
    ensures { option_map production_view result ≡ on_source token }
{
    match token {
        Token::Keyword(Keyword::Module) => rule(
            Action::Pass,
            &[
                Symbol::ModuleName,
                Symbol::Header,
                Symbol::Items,
                Symbol::Source,
            ],
        ),
        _ => None,
    }
}

fn module_name(token: Token) -> Option<Production>
    ensures { option_map production_view result ≡ on_module_name token }
{
    match token {
        Token::Name(_) => rule(Action::BeginModule, &[]),
        _ => None,
    }
}

fn header(token: Token) -> Option<Production>
    ensures { option_map production_view result ≡ on_header token }
{
    match token {
        Token::Mark(Mark::Semicolon) => rule(Action::Pass, &[]),
        Token::Mark(Mark::Open) => rule(
            Action::Pass,
            &[Symbol::Ports, Symbol::Expect(Mark::Semicolon)],
        ),
        _ => None,
    }
}

fn ports(token: Token) -> Option<Production>
    ensures { option_map production_view result ≡ on_ports token }
{
    match token {
        Token::Mark(Mark::Close) => rule(Action::Pass, &[]),
        Token::Name(_) => rule(Action::ListPort, &[Symbol::PortsMore]),
        Token::Keyword(Keyword::Input | Keyword::Output) => rule(
            Action::HeaderDirection,
            &[Symbol::Declared, Symbol::HeaderMore],
        ),
        _ => None,
    }
}

fn ports_more(token: Token) -> Option<Production>
    ensures { option_map production_view result ≡ on_ports_more token }
{
    match token {
        Token::Mark(Mark::Comma) => rule(Action::Pass, &[Symbol::PortName, Symbol::PortsMore]),
        Token::Mark(Mark::Close) => rule(Action::Pass, &[]),
        _ => None,
    }
}

fn port_name(token: Token) -> Option<Production>
    ensures { option_map production_view result ≡ on_port_name token }
{
    match token {
        Token::Name(_) => rule(Action::ListPort, &[]),
        _ => None,
    }
}

fn header_more(token: Token) -> Option<Production>
    ensures { option_map production_view result ≡ on_header_more token }
{
    match token {
        Token::Mark(Mark::Comma) => rule(Action::Pass, &[Symbol::HeaderPort, Symbol::HeaderMore]),
        Token::Mark(Mark::Close) => rule(Action::Pass, &[]),
        _ => None,
    }
}

fn header_port(token: Token) -> Option<Production>
    ensures { option_map production_view result ≡ on_header_port token }
{
    match token {
        Token::Keyword(Keyword::Input | Keyword::Output) => rule(
            Action::HeaderDirection,
            &[Symbol::Declared],
        ),
        Token::Name(_) => rule(Action::Declare, &[]),
        _ => None,
    }
}

fn declared(token: Token) -> Option<Production>
    ensures { option_map production_view result ≡ on_declared token }
{
    match token {
        Token::Keyword(Keyword::Wire) => rule(Action::Pass, &[Symbol::Vector]),
        Token::Mark(Mark::OpenBracket) => rule(
            Action::Pass,
            &[
                Symbol::LeftBound,
                Symbol::Expect(Mark::Colon),
                Symbol::RightBound,
                Symbol::Expect(Mark::CloseBracket),
                Symbol::DeclaredName,
            ],
        ),
        Token::Name(_) => rule(Action::Declare, &[]),
        _ => None,
    }
}

fn vector(token: Token) -> Option<Production>
    ensures { option_map production_view result ≡ on_vector token }
{
    match token {
        Token::Mark(Mark::OpenBracket) => rule(
            Action::Pass,
            &[
                Symbol::LeftBound,
                Symbol::Expect(Mark::Colon),
                Symbol::RightBound,
                Symbol::Expect(Mark::CloseBracket),
                Symbol::DeclaredName,
            ],
        ),
        Token::Name(_) => rule(Action::Declare, &[]),
        _ => None,
    }
}

fn declared_name(token: Token) -> Option<Production>
    ensures { option_map production_view result ≡ on_declared_name token }
{
    match token {
        Token::Name(_) => rule(Action::Declare, &[]),
        _ => None,
    }
}

fn items(token: Token) -> Option<Production>
    ensures { option_map production_view result ≡ on_items token }
{
    match token {
        Token::Keyword(Keyword::EndModule) => rule(Action::EndModule, &[]),
        Token::Keyword(Keyword::Input | Keyword::Output) => rule(
            Action::ItemDirection,
            &[Symbol::Declared, Symbol::DeclaredMore, Symbol::Items],
        ),
        Token::Keyword(Keyword::Wire) => rule(
            Action::ItemWires,
            &[Symbol::Vector, Symbol::DeclaredMore, Symbol::Items],
        ),
        Token::Keyword(Keyword::Assign) => rule(
            Action::BeginAssign,
            &[
                Symbol::Value,
                Symbol::AssignSign,
                Symbol::Value,
                Symbol::AssignMore,
                Symbol::Items,
            ],
        ),
        Token::Name(_) => rule(
            Action::Target,
            &[Symbol::InstanceName, Symbol::InstanceMore, Symbol::Items],
        ),
        _ => None,
    }
}

fn declared_more(token: Token) -> Option<Production>
    ensures { option_map production_view result ≡ on_declared_more token }
{
    match token {
        Token::Mark(Mark::Comma) => rule(
            Action::Pass,
            &[Symbol::DeclaredName, Symbol::DeclaredMore],
        ),
        Token::Mark(Mark::Semicolon) => rule(Action::Pass, &[]),
        _ => None,
    }
}

fn instance_name(token: Token) -> Option<Production>
    ensures { option_map production_view result ≡ on_instance_name token }
{
    match token {
        Token::Name(_) => rule(
            Action::BeginInstance,
            &[Symbol::Expect(Mark::Open), Symbol::Connections],
        ),
        _ => None,
    }
}

fn instance_more(token: Token) -> Option<Production>
    ensures { option_map production_view result ≡ on_instance_more token }
{
    match token {
        Token::Mark(Mark::Comma) => rule(
            Action::Pass,
            &[Symbol::InstanceName, Symbol::InstanceMore],
        ),
        Token::Mark(Mark::Semicolon) => rule(Action::Pass, &[]),
        _ => None,
    }
}

fn value(token: Token) -> Option<Production>
    ensures { option_map production_view result ≡ on_value actions.StartValue [] token }
{
    match token {
        Token::Name(_) => rule(Action::StartValue, &[Symbol::Tail]),
        Token::Constant(_, _) => rule(Action::StartValue, &[]),
        Token::Mark(Mark::OpenBrace) => rule(
            Action::StartValue,
            &[Symbol::Value, Symbol::ConcatMore],
        ),
        _ => None,
    }
}

fn connections(token: Token) -> Option<Production>
    ensures { option_map production_view result ≡ on_connections token }
{
    match token {
        Token::Mark(Mark::Close) => rule(Action::EndInstance, &[]),
        Token::Mark(Mark::Dot) => rule(Action::Pass, &[Symbol::ConnectionName, Symbol::NamedMore]),
        Token::Name(_) => rule(Action::FirstOrdered, &[Symbol::Tail, Symbol::OrderedMore]),
        Token::Constant(_, _) => rule(Action::FirstOrdered, &[Symbol::OrderedMore]),
        Token::Mark(Mark::OpenBrace) => rule(
            Action::FirstOrdered,
            &[Symbol::Value, Symbol::ConcatMore, Symbol::OrderedMore],
        ),
        _ => None,
    }
}

fn named_more(token: Token) -> Option<Production>
    ensures { option_map production_view result ≡ on_named_more token }
{
    match token {
        Token::Mark(Mark::Comma) => rule(
            Action::Pass,
            &[
                Symbol::Expect(Mark::Dot),
                Symbol::ConnectionName,
                Symbol::NamedMore,
            ],
        ),
        Token::Mark(Mark::Close) => rule(Action::EndInstance, &[]),
        _ => None,
    }
}

fn connection_name(token: Token) -> Option<Production>
    ensures { option_map production_view result ≡ on_connection_name token }
{
    match token {
        Token::Name(_) => rule(
            Action::ConnectionName,
            &[Symbol::Expect(Mark::Open), Symbol::NamedValue],
        ),
        _ => None,
    }
}

fn named_value(token: Token) -> Option<Production>
    ensures { option_map production_view result ≡ on_named_value token }
{
    match token {
        Token::Mark(Mark::Close) => rule(Action::EndNamed, &[]),
        Token::Name(_) => rule(Action::StartValue, &[Symbol::Tail, Symbol::NamedEnd]),
        Token::Constant(_, _) => rule(Action::StartValue, &[Symbol::NamedEnd]),
        Token::Mark(Mark::OpenBrace) => rule(
            Action::StartValue,
            &[Symbol::Value, Symbol::ConcatMore, Symbol::NamedEnd],
        ),
        _ => None,
    }
}

fn named_end(token: Token) -> Option<Production>
    ensures { option_map production_view result ≡ on_named_end token }
{
    match token {
        Token::Mark(Mark::Close) => rule(Action::EndNamed, &[]),
        _ => None,
    }
}

fn ordered_more(token: Token) -> Option<Production>
    ensures { option_map production_view result ≡ on_ordered_more token }
{
    match token {
        Token::Mark(Mark::Comma) => rule(
            Action::NextOrdered,
            &[Symbol::Value, Symbol::OrderedMore],
        ),
        Token::Mark(Mark::Close) => rule(Action::LastOrdered, &[]),
        _ => None,
    }
}

fn tail(token: Token) -> Option<Production>
    ensures { option_map production_view result ≡ on_tail token }
{
    match token {
        Token::Mark(Mark::OpenBracket) => rule(Action::Select, &[Symbol::Index, Symbol::IndexMore]),
        _ => None,
    }
}

fn concat_more(token: Token) -> Option<Production>
    ensures { option_map production_view result ≡ on_concat_more token }
{
    match token {
        Token::Mark(Mark::Comma) => rule(Action::Pass, &[Symbol::Value, Symbol::ConcatMore]),
        Token::Mark(Mark::CloseBrace) => rule(Action::Pass, &[]),
        _ => None,
    }
}

fn index_more(token: Token) -> Option<Production>
    ensures { option_map production_view result ≡ on_index_more token }
{
    match token {
        Token::Mark(Mark::CloseBracket) => rule(Action::OneBit, &[]),
        Token::Mark(Mark::Colon) => rule(
            Action::Pass,
            &[Symbol::SecondIndex, Symbol::Expect(Mark::CloseBracket)],
        ),
        _ => None,
    }
}

fn assign_sign(token: Token) -> Option<Production>
    ensures { option_map production_view result ≡ on_assign_sign token }
{
    match token {
        Token::Mark(Mark::Equals) => rule(Action::EndLeft, &[]),
        _ => None,
    }
}

fn assign_more(token: Token) -> Option<Production>
    ensures { option_map production_view result ≡ on_assign_more token }
{
    match token {
        Token::Mark(Mark::Comma) => rule(
            Action::NextAssign,
            &[
                Symbol::Value,
                Symbol::AssignSign,
                Symbol::Value,
                Symbol::AssignMore,
            ],
        ),
        Token::Mark(Mark::Semicolon) => rule(Action::LastAssign, &[]),
        _ => None,
    }
}

/// A number, which has to have at most 32 bits.
fn bound(action: Action, token: Token) -> Option<Production>
    ensures { option_map production_view result ≡ on_bound action [] token }
{
    match token {
        Token::Number(Some(_)) => rule(action, &[]),
        _ => None,
    }
}

fn is_same_mark(a: Mark, b: Mark) -> bool
    ensures { result ≡ is_same_mark a b }
{
    a == b
}

fn mark(wanted: Mark, token: Token) -> Option<Production>
    ensures { option_map production_view result ≡ on_mark wanted token }
{
    match token {
        Token::Mark(found) if is_same_mark(wanted, found) => rule(Action::Pass, &[]),
        _ => None,
    }
}

/// The production of a symbol that begins with a token.
pub(crate) fn production_of(symbol: Symbol, token: Token) -> Option<Production>
    ensures { option_map production_view result ≡ production symbol token }
{
    match symbol {
        Symbol::Source => source(token),
        Symbol::ModuleName => module_name(token),
        Symbol::Header => header(token),
        Symbol::Ports => ports(token),
        Symbol::PortsMore => ports_more(token),
        Symbol::PortName => port_name(token),
        Symbol::HeaderMore => header_more(token),
        Symbol::HeaderPort => header_port(token),
        Symbol::Declared => declared(token),
        Symbol::Vector => vector(token),
        Symbol::DeclaredName => declared_name(token),
        Symbol::Items => items(token),
        Symbol::DeclaredMore => declared_more(token),
        Symbol::InstanceName => instance_name(token),
        Symbol::InstanceMore => instance_more(token),
        Symbol::LeftBound => bound(Action::LeftBound, token),
        Symbol::RightBound => bound(Action::RightBound, token),
        Symbol::Connections => connections(token),
        Symbol::NamedMore => named_more(token),
        Symbol::ConnectionName => connection_name(token),
        Symbol::NamedValue => named_value(token),
        Symbol::NamedEnd => named_end(token),
        Symbol::OrderedMore => ordered_more(token),
        Symbol::Value => value(token),
        Symbol::Tail => tail(token),
        Symbol::ConcatMore => concat_more(token),
        Symbol::IndexMore => index_more(token),
        Symbol::AssignSign => assign_sign(token),
        Symbol::AssignMore => assign_more(token),
        Symbol::Index => bound(Action::Index, token),
        Symbol::SecondIndex => bound(Action::ManyBits, token),
        Symbol::Expect(wanted) => mark(wanted, token),
    }
}
