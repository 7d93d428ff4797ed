ghost use Rattle.std.specs.Prelude.{◌≡◌, [], ◌∷◌, drop, MatchOption, OnOk, OnErr};

use lp_text::NoMemory;
use std::alloc::Global;
use std::marker::Model;

/// A stack of plain values: contracts see their list, the top first.
#[derive(Drop)]
pub struct Stack<T: Copy + Drop> {
    items: Vec<T>,
}

impl<T: Copy + Drop> Model for Stack<T> {
    ghost use Rattle.std.specs.Prelude.{List, reverse};

    ghost Value = { List T };

    ghost view = { λ s. reverse s.items.items };
}

impl<T: Copy + Drop> Stack<T> {
    /// An empty stack, which takes no memory.
    pub fn new(alloc: Global) -> Stack<T>
        ensures { result ≡ [] }
    {
        Stack {
            items: Vec::new(alloc),
        }
    }

    /// Puts a value on top.
    ///
    /// # Errors
    ///
    /// Only where memory is refused: the stack is as before.
    pub fn push(&mut self, value: T) -> Result<(), NoMemory>
        ensures ok { OnOk result (self.new ≡ value ∷ self.old) }
        ensures err { OnErr result (self.new ≡ self.old) }
    {
        self.items.push(value)?;
        Ok(())
    }

    /// The top, none where the stack is empty.
    pub fn top(&self) -> Option<T>
        ensures { MatchOption result (self.now ≡ []) (λ value. self.now ≡ value ∷ drop 1 self.now) }
    {
        self.items.last().copied()
    }

    /// Takes the top off, none where the stack is empty.
    pub fn pop(&mut self) -> Option<T>
        ensures { MatchOption result ((self.old ≡ []) × (self.new ≡ [])) (λ value. self.old ≡ value ∷ self.new) }
    {
        self.items.pop()
    }
}
