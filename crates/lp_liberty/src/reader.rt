ghost use Rattle.std.specs.Prelude.{◌≡◌, [], ◌++◌, ◌∷◌, Some, None, ◌<◌, ◌^◌, true, length, nat_lt, IfOk, OnOk, if◌then◌else◌, vec_len};
ghost use Rattle.lp_liberty.specs.Machine.{args_mark, begin_mark, begin_name, behind_mark, context_of, ended, holding, in_mode, innermost, is_deep_by, is_done_by, is_inside, items_mark, mark_in, name_in, named_mark, opened_in, shut_in, start, with_attr_at};

use crate::mark::{Context, Last, Mark, Mode};
use lp_model::{Attr, Group};
use lp_stack::Stack;
use lp_text::{NameId, NoMemory};
use sqlite_items::Items;
use std::alloc::Global;
use std::marker::Model;
use std::mem;

/// The most groups that stand in one another.
const DEEPEST: u32 = 64;

/// A reader of one text, which goes from token to token.
///
/// A step says whether the token was taken. After one that was not taken the reader is of no use.
#[derive(Drop)]
pub(crate) struct Reader {
    alloc: Global,
    groups: Vec<Group>,
    opened: Stack<u32>,
    depth: u32,
    mode: Mode,
    word: NameId,
    held: Items<NameId>,
    head: usize,
}

impl Model for Reader {
    ghost use Rattle.std.specs.Prelude.{◌≡◌, length};
    ghost use Rattle.lp_liberty.specs.Machine.{Machine};

    ghost Value = { Machine };

    ghost view = { λ r. record { groups = r.groups.items; opened = r.opened; mode = r.mode; word = r.word; held = r.held; head = r.head } };

    ghost invariant = { λ r. r.depth ≡ length r.opened };
}

/// Adds an attribute to the group of a number, if there is one.
fn add_attr(groups: &mut Vec<Group>, number: usize, attr: Attr) -> Result<(), NoMemory>
    ensures { OnOk result (groups.new.items ≡ with_attr_at groups.old.items number attr) }
{
    if number < groups.as_slice().len() {
        groups[number].attrs.push(attr)?;
    }
    Ok(())
}

impl Reader {
    pub(crate) fn new(alloc: Global) -> Reader
        ensures { result ≡ start }
    {
        Reader {
            alloc,
            groups: Vec::new(alloc),
            opened: Stack::new(alloc),
            depth: 0,
            mode: Mode::Begin(false),
            word: NameId(0),
            held: Items::new(alloc),
            head: 0,
        }
    }

    /// What has been read of the current statement.
    pub(crate) fn mode(&self) -> Mode
        ensures { result ≡ self.now.mode }
    {
        self.mode
    }

    /// The form of the next token.
    pub(crate) fn context(&self) -> Context
        ensures { result ≡ context_of self.now.mode }
    {
        self.mode.context()
    }

    /// The place of the word of the current statement.
    pub(crate) fn head(&self) -> usize
        ensures { result ≡ self.now.head }
    {
        self.head
    }

    /// The number of groups.
    pub(crate) fn count(&self) -> usize
        ensures { result ≡ length self.now.groups }
    {
        self.groups.len()
    }

    /// Whether a mark that is not taken would open a group too deep.
    pub(crate) fn is_deep(&self, mark: Mark) -> bool
        ensures { result ≡ is_deep_by self.now.mode mark }
    {
        self.mode.is_deep(mark)
    }

    /// Whether the file may end here.
    pub(crate) fn is_done(&self) -> bool
        ensures { result ≡ is_done_by self.now.mode self.now.opened }
    {
        match self.mode {
            Mode::Begin(_) => self.opened.top().is_none(),
            Mode::Named | Mode::Args(_) | Mode::Behind | Mode::Items => false,
        }
    }

    /// The groups.
    pub(crate) fn into_groups(self) -> Items<Group>
        ensures { result ≡ self.groups }
    {
        Items::from_vec(self.groups)
    }

    fn is_inside(&self) -> bool
        ensures { result ≡ is_inside self.now }
    {
        self.opened.top().is_some()
    }

    /// Whether a group may be opened here.
    pub(crate) fn has_room(&self) -> bool
        ensures { result ≡ nat_lt (length self.now.opened) 64 }
    {
        self.depth < DEEPEST
    }

    fn set_mode(&mut self, mode: Mode)
        ensures { self.new ≡ in_mode mode self.old }
    {
        self.mode = mode;
    }

    /// Begins a list of names.
    fn begin_list(&mut self, mode: Mode)
        ensures { self.new ≡ holding mode [] self.old }
    {
        self.held = Items::new(self.alloc);
        self.mode = mode;
    }

    /// Adds a name to the list.
    fn hold(&mut self, mode: Mode, id: NameId) -> Result<(), NoMemory>
        ensures { OnOk result (self.new ≡ holding mode (self.old.held ++ id ∷ []) self.old) }
    {
        self.held.push(id)?;
        self.mode = mode;
        Ok(())
    }

    /// Ends the statement as an attribute of the innermost group.
    fn end(&mut self, complex: bool, semi: bool) -> Result<(), NoMemory>
        ensures { OnOk result (self.new ≡ ended complex semi self.old) }
    {
        let items = mem::replace(&mut self.held, Items::new(self.alloc));
        let attr = Attr {
            items,
            word: self.word,
            complex,
        };
        if let Some(number) = self.opened.top() {
            add_attr(&mut self.groups, number as usize, attr)?;
        }
        self.mode = Mode::Begin(semi);
        Ok(())
    }

    /// Ends the statement as the head of a group.
    fn open(&mut self) -> Result<(), NoMemory>
        requires few { length self.old.groups < 2 ^ 32 }
        requires room { length self.old.opened < 64 }
        ensures { OnOk result (self.new ≡ opened_in self.old) }
    {
        let number = self.groups.len() as u32;
        let args = mem::replace(&mut self.held, Items::new(self.alloc));
        let group = Group {
            word: self.word,
            args,
            parent: self.opened.top(),
            attrs: Items::new(self.alloc),
        };
        self.groups.push(group)?;
        self.opened.push(number)?;
        self.depth += 1;
        self.mode = Mode::Begin(false);
        Ok(())
    }

    /// Ends the innermost group.
    fn shut(&mut self) -> bool
        ensures { shut_in self.old ≡ (if result then Some self.new else None) }
    {
        match self.opened.pop() {
            Some(_) => {
                self.depth -= 1;
                self.mode = Mode::Begin(true);
                true
            }
            None => false,
        }
    }

    /// A name where a statement may begin.
    fn begin_name(&mut self, quoted: bool, id: NameId, at: usize) -> bool
        ensures { begin_name quoted id at self.old ≡ (if result then Some self.new else None) }
    {
        if quoted {
            return false;
        }
        self.word = id;
        self.head = at;
        self.mode = Mode::Named;
        true
    }

    /// Takes a word or a string, or says that it cannot stand here.
    pub(crate) fn take_name(
        &mut self,
        quoted: bool,
        id: NameId,
        at: usize,
    ) -> Result<bool, NoMemory>
        ensures { IfOk result (λ taken. name_in quoted id at self.old ≡ (if taken then Some self.new else None)) }
    {
        match self.mode {
            Mode::Begin(_) => Ok(self.begin_name(quoted, id, at)),
            Mode::Named => Ok(false),
            Mode::Args(_) => {
                self.hold(Mode::Args(Last::Name), id)?;
                Ok(true)
            }
            Mode::Behind => {
                if !self.is_inside() {
                    return Ok(false);
                }
                self.end(true, true)?;
                Ok(self.begin_name(quoted, id, at))
            }
            Mode::Items => {
                self.hold(Mode::Items, id)?;
                Ok(true)
            }
        }
    }

    fn begin_mark(&mut self, semi: bool, mark: Mark) -> bool
        ensures { begin_mark semi mark self.old ≡ (if result then Some self.new else None) }
    {
        match mark {
            Mark::BraceClose => self.shut(),
            Mark::Semicolon => {
                if semi {
                    self.set_mode(Mode::Begin(false));
                }
                semi
            }
            _ => false,
        }
    }

    fn named_mark(&mut self, mark: Mark) -> bool
        ensures { named_mark mark self.old ≡ (if result then Some self.new else None) }
    {
        match mark {
            Mark::ParenOpen => {
                self.begin_list(Mode::Args(Last::Nothing));
                true
            }
            Mark::Colon => {
                let inside = self.is_inside();
                if inside {
                    self.begin_list(Mode::Items);
                }
                inside
            }
            _ => false,
        }
    }

    fn args_mark(&mut self, last: Last, mark: Mark) -> bool
        ensures { args_mark last mark self.old ≡ (if result then Some self.new else None) }
    {
        match (last, mark) {
            (Last::Name, Mark::Comma) => {
                self.set_mode(Mode::Args(Last::Comma));
                true
            }
            (Last::Name | Last::Nothing, Mark::ParenClose) => {
                self.set_mode(Mode::Behind);
                true
            }
            _ => false,
        }
    }

    fn behind_mark(&mut self, mark: Mark) -> Result<bool, NoMemory>
        requires { length self.old.groups < 2 ^ 32 }
        ensures { IfOk result (λ taken. behind_mark mark self.old ≡ (if taken then Some self.new else None)) }
    {
        match mark {
            Mark::BraceOpen => {
                let room = self.has_room();
                if room {
                    self.open()?;
                }
                Ok(room)
            }
            _ => {
                if !self.is_inside() {
                    return Ok(false);
                }
                self.end(true, true)?;
                Ok(self.begin_mark(true, mark))
            }
        }
    }

    fn items_mark(&mut self, mark: Mark) -> Result<bool, NoMemory>
        ensures { IfOk result (λ taken. items_mark mark self.old ≡ (if taken then Some self.new else None)) }
    {
        match mark {
            Mark::Comma | Mark::ParenOpen | Mark::ParenClose => Ok(true),
            Mark::Semicolon | Mark::LineEnd => {
                self.end(false, false)?;
                Ok(true)
            }
            Mark::BraceClose => {
                self.end(false, false)?;
                Ok(self.shut())
            }
            Mark::BraceOpen | Mark::Colon | Mark::Broken => Ok(false),
        }
    }

    /// Takes a mark, or says that it cannot stand here.
    pub(crate) fn take_mark(&mut self, mark: Mark) -> Result<bool, NoMemory>
        requires { length self.old.groups < 2 ^ 32 }
        ensures { IfOk result (λ taken. mark_in mark self.old ≡ (if taken then Some self.new else None)) }
    {
        match self.mode {
            Mode::Begin(semi) => Ok(self.begin_mark(semi, mark)),
            Mode::Named => Ok(self.named_mark(mark)),
            Mode::Args(last) => Ok(self.args_mark(last, mark)),
            Mode::Behind => self.behind_mark(mark),
            Mode::Items => self.items_mark(mark),
        }
    }
}
