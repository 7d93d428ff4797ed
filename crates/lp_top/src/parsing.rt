ghost use Rattle.std.specs.Prelude.{◌≡◌, IfOk, map};
ghost use Rattle.std.specs.Option.{option_map};
ghost use Rattle.lp_plain_upf.specs.Names.{has_name};
ghost use Rattle.lp_top.specs.Words.{word_is, option_at, command_of, files_of, input_files, clashes};

use crate::words::Command;
use lp_text::{NoMemory, Word};
use std::alloc::Global;

fn word<'a>(words: &'a [Word], name: &str) -> Option<&'a [Word]>
    ensures { option_map (λ r. r.now) result ≡ word_is name.now words.now }
{
    match words {
        [first, rest @ ..] if first.text() == name => Some(rest),
        _ => None,
    }
}

fn option<'a>(words: &'a [Word], name: &str) -> Option<(&'a str, &'a [Word])>
    ensures { option_map (λ r. (r.0.now, r.1.now)) result ≡ option_at name.now words.now }
{
    match words {
        [first, value, rest @ ..] if first.text() == name => Some((value.text(), rest)),
        _ => None,
    }
}

/// The command that the words are, in their one order.
#[tactic(auto, unfolding(crate::specs::Words::command_of))]
pub(crate) fn command(words: &[Word]) -> Option<Command<'_>>
    ensures { option_map files_of result ≡ command_of words.now }
{
    let options = word(words, "insert")?;
    let (netlist, rest) = option(options, "--netlist")?;
    let (upf, rest) = option(rest, "--upf")?;
    let (out, rest) = option(rest, "--out")?;
    let (report, libraries) = option(rest, "--report")?;
    if libraries.is_empty() {
        return None;
    }
    Some(Command {
        netlist,
        upf,
        out,
        report,
        libraries,
    })
}

fn is_among(names: &[Word], name: &str) -> bool
    ensures { result ≡ has_name name.now names.now }
{
    for other in names {
        if other.text() == name {
            return true;
        }
    }
    false
}

fn is_input(command: &Command<'_>, name: &str) -> bool
    ensures { result ≡ has_name name.now (input_files (files_of command.now)) }
{
    command.netlist == name || command.upf == name || is_among(command.libraries, name)
}

/// Whether there are more than 16 libraries, or an output is another file too.
pub(crate) fn has_clash(command: &Command<'_>) -> bool
    ensures { result ≡ clashes (files_of command.now) }
{
    command.libraries.len() > 16
        || command.out == command.report
        || is_input(command, command.out)
        || is_input(command, command.report)
}

/// The names of the input files, in the order in which they are read.
pub(crate) fn inputs<'a>(alloc: Global, command: &Command<'a>) -> Result<Vec<&'a str>, NoMemory>
    ensures { IfOk result (λ v. map (λ n. n.now) v.items ≡ input_files (files_of command.now)) }
{
    let mut names = Vec::new(alloc);
    names.push(command.netlist)?;
    names.push(command.upf)?;
    for library in command.libraries {
        names.push(library.text())?;
    }
    Ok(names)
}
