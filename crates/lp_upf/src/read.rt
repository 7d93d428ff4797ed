ghost use Rattle.std.specs.Prelude.{◌≡◌, ◌≤◌, ◌+◌, ◌*◌, length, true, IfOk, IfErr};
ghost use Rattle.lp_text.specs.Limits.{most_names_before};
ghost use Rattle.lp_text.specs.Texts.{Grown};
ghost use Rattle.lp_model.specs.Agreement.{numbers_below};
ghost use Rattle.lp_model.specs.CommandsView.{commands_numbers};
ghost use Rattle.lp_upf.specs.Answer.{Refuses, Says};

use crate::commands::{Done, read_commands};
use lp_model::{Commands, IntentFault, IntentLimit, Refusal};
use lp_text::{LIMIT, Names};
use lp_upf_words::read_words;
use std::alloc::Global;

/// Reads a UPF text as its commands (IEEE 1801-2015, the commands and options that are read); words go into the table
/// of names.
///
/// The table has at most 3,000,000,000 names before, and grows by at most three names for each byte and one more.
///
/// # Errors
///
/// F43 above 67,108,864 bytes; else the text's one fault, of the first command that has one: F30 where it leaves the
/// form or lacks an option, F31 of a word that is not read, F34 of a clamp value other than 0 and 1; and where memory
/// is refused. The table may then have grown.
pub fn read_intent(alloc: Global, names: &mut Names, text: &[u8]) -> Result<Commands, Refusal>
    requires { length names.old ≤ most_names_before }
    ensures ok { IfOk result (Says text.now names.new) }
    ensures err { IfErr result (Refuses text.now names.new) }
    ensures numbers { IfOk result (λ c. numbers_below (length names.new) (commands_numbers c) ≡ true) }
    ensures grown { Grown names.old names.new }
    ensures few { length names.new ≤ length names.old + 3 * length text.now + 1 }
{
    if text.len() > LIMIT {
        return Err(Refusal::from(IntentFault::Limit {
            limit: IntentLimit::Bytes,
        }));
    }
    let words = read_words(alloc, names, text)?;
    let mut done = Done::new(alloc);
    match read_commands(alloc, names, &words, &mut done)? {
        None => Ok(Commands {
            items: done.commands,
        }),
        Some(fault) => Err(Refusal::from(fault)),
    }
}
