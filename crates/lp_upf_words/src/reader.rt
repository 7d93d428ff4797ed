ghost use Rattle.std.specs.Prelude.{◌≡◌, ℕ, List, ◌++◌, ◌∷◌, [], ◌+◌, ◌-◌, ◌<◌, ◌≤◌, ◌^◌, length, true, None, Some, IfOk, OnOk, encode_utf8};
ghost use Rattle.std.specs.String.{string_bytes};
ghost use Rattle.lp_text.specs.Limits.{most_names};
ghost use Rattle.lp_text.specs.Places.{past_byte};
ghost use Rattle.lp_text.specs.Texts.{Grown, with_text, text_at};
ghost use Rattle.lp_model.specs.Agreement.{numbers_below};
ghost use Rattle.lp_upf_words.specs.Reading.{applied, closed, ended, left, moved, start_at, weight};
ghost use Rattle.lp_upf_words.specs.Views.{numbers_of, state_of};

use crate::answer::WordsRead;
use crate::mode::{Action, Mode, Stop};
use lp_model::{IntentFault, UpfWord, WordForm, WordList};
use lp_text::{NameId, Names, NamesFault, NoMemory, Place};
use sqlite_items::Items;
use std::alloc::Global;
use std::mem;

/// A reader of one text, which goes from byte to byte.
#[derive(Drop)]
pub(crate) struct Reader {
    /// The commands that have ended.
    pub commands: Items<Items<UpfWord>>,
    /// The place of the end of each.
    pub ends: Items<Place>,
    /// The words of the command that is being read.
    pub words: Items<UpfWord>,
    /// What the word that is being read says so far.
    pub said: String,
    /// The place of its first byte.
    pub begun: Place,
    /// The place of the next byte.
    pub here: Place,
    /// What stands before the next byte.
    pub mode: Mode,
    alloc: Global,
}

/// The number of a name, where the table has room for one more.
pub(crate) fn intern(names: &mut Names, name: &str) -> Result<NameId, NoMemory>
    requires { length names.old < most_names }
    ensures below { IfOk result (λ id. id.0 < length names.new) }
    ensures text { IfOk result (λ id. text_at names.new id.0 ≡ name.now) }
    ensures grown { Grown names.old names.new }
    ensures few { length names.new ≤ length names.old + 1 }
{
    match names.intern(name) {
        Ok(id) => Ok(id),
        Err(NamesFault::NoMemory) => Err(NoMemory),
        Err(NamesFault::Full) => unreachable!(),
    }
}

/// The place behind a byte.
pub(crate) fn past_byte(place: Place, byte: u8) -> Place
    requires line { place.line < 2 ^ 32 - 1 }
    requires column { place.column < 2 ^ 32 - 1 }
    ensures value { result ≡ past_byte place byte }
    ensures line { result.line ≤ place.line + 1 }
    ensures column { result.column ≤ place.column + 1 }
{
    if byte == b'\n' {
        Place {
            line: place.line + 1,
            column: 1,
        }
    } else {
        Place {
            line: place.line,
            column: place.column + 1,
        }
    }
}

impl Reader {
    /// Where a command may begin, or else a further word, at a place.
    pub(crate) fn new(alloc: Global, fresh: bool, place: Place) -> Reader
        ensures state { (names : List (List ℕ)) → state_of names result ≡ start_at fresh place }
        ensures mode { result.mode ≡ Mode.Gap fresh }
        ensures here { result.here ≡ place }
        ensures numbers { numbers_of result ≡ [] }
    {
        Reader {
            commands: Items::new(alloc),
            ends: Items::new(alloc),
            words: Items::new(alloc),
            said: String::new(alloc),
            begun: place,
            here: place,
            mode: Mode::Gap(fresh),
            alloc,
        }
    }

    /// A word begins here.
    fn open(&mut self)
        ensures same { self.new ≡ record self.old { said = self.new.said; begun = self.old.here } }
        ensures said { string_bytes self.new.said ≡ [] }
    {
        self.said.clear();
        self.begun = self.here;
    }

    /// The word goes on with a byte.
    fn say(&mut self, byte: u8) -> Result<(), NoMemory>
        ensures ok { self.new ≡ record self.old { said = self.new.said } }
        ensures said { OnOk result (string_bytes self.new.said ≡ string_bytes self.old.said ++ encode_utf8 byte) }
    {
        self.said.push(byte as char)?;
        Ok(())
    }

    /// The word ends.
    fn close(&mut self, names: &mut Names, form: WordForm) -> Result<(), NoMemory>
        requires room { length names.old < most_names }
        requires below { numbers_below (length names.old) (numbers_of self.old) ≡ true }
        ensures ok { OnOk result (state_of names.new self.new ≡ closed form self.old.mode (state_of names.old self.old)) }
        ensures below { OnOk result (numbers_below (length names.new) (numbers_of self.new) ≡ true) }
        ensures mode { self.new.mode ≡ self.old.mode }
        ensures here { self.new.here ≡ self.old.here }
        ensures grown { Grown names.old names.new }
        ensures few { length names.new ≤ length names.old + 1 }
    {
        let name = intern(names, self.said.as_str())?;
        let place = self.begun;
        self.words.push(UpfWord { name, place, form })?;
        Ok(())
    }

    /// The command ends.
    fn end(&mut self) -> Result<(), NoMemory>
        ensures ok { (names : List (List ℕ)) → OnOk result (state_of names self.new ≡ ended (state_of names self.old)) }
        ensures below { (n : ℕ) → numbers_below n (numbers_of self.old) ≡ true → OnOk result (numbers_below n (numbers_of self.new) ≡ true) }
        ensures mode { OnOk result (self.new.mode ≡ Mode.Gap true) }
        ensures here { self.new.here ≡ self.old.here }
    {
        let words = mem::replace(&mut self.words, Items::new(self.alloc));
        self.commands.push(words)?;
        self.ends.push(self.here)?;
        self.mode = Mode::Gap(true);
        Ok(())
    }

    /// Does what a byte does, and says whether the text leaves the form with it.
    pub(crate) fn apply(
        &mut self,
        names: &mut Names,
        action: Action,
        byte: u8,
    ) -> Result<Option<Stop>, NoMemory>
        requires room { length names.old < most_names }
        requires below { numbers_below (length names.old) (numbers_of self.old) ≡ true }
        ensures ok { IfOk result (λ stop. applied action byte (state_of names.old self.old) ≡ record { state = state_of names.new self.new; stop = stop }) }
        ensures below { OnOk result (numbers_below (length names.new) (numbers_of self.new) ≡ true) }
        ensures here { self.new.here ≡ self.old.here }
        ensures grown { Grown names.old names.new }
        ensures few { length names.new ≤ length names.old + weight action }
        ensures size { IfOk result (λ stop. length names.new + left self.new.mode stop ≤ length names.old + weight action) }
    {
        match action {
            Action::Turn(mode) => self.mode = mode,
            Action::Say(mode) => {
                self.say(byte)?;
                self.mode = mode;
            }
            Action::Open(mode) => {
                self.open();
                self.mode = mode;
            }
            Action::Begin(mode) => {
                self.open();
                self.say(byte)?;
                self.mode = mode;
            }
            Action::Close(form, mode) => {
                self.close(names, form)?;
                self.mode = mode;
            }
            Action::End => self.end()?,
            Action::CloseEnd => {
                self.close(names, WordForm::Bare)?;
                self.end()?;
            }
            Action::Stop(stop) => return Ok(Some(stop)),
        }
        Ok(None)
    }

    /// Goes behind a byte.
    pub(crate) fn move_past(&mut self, byte: u8)
        requires line { self.old.here.line < 2 ^ 32 - 1 }
        requires column { self.old.here.column < 2 ^ 32 - 1 }
        ensures state { (names : List (List ℕ)) → state_of names self.new ≡ moved byte (state_of names self.old) }
        ensures numbers { numbers_of self.new ≡ numbers_of self.old }
        ensures mode { self.new.mode ≡ self.old.mode }
        ensures here { self.new.here ≡ past_byte self.old.here byte }
        ensures line { self.new.here.line ≤ self.old.here.line + 1 }
        ensures column { self.new.here.column ≤ self.old.here.column + 1 }
    {
        self.here = past_byte(self.here, byte);
    }

    /// What was read, with its fault.
    pub(crate) fn into_words(self, fault: Option<IntentFault>) -> WordsRead
        ensures { result ≡ record { list = record { commands = self.commands }; ends = self.ends; unfinished = self.words; fault = fault } }
    {
        WordsRead {
            list: WordList {
                commands: self.commands,
            },
            ends: self.ends,
            unfinished: self.words,
            fault,
        }
    }
}
