ghost use Rattle.std.specs.Prelude.{◌≡◌, OnOk, IfOk};
ghost use Rattle.lp_verilog_grammar.specs.Machine.{start, begin_module, list_port, declaring_as, give_direction, declare_name, finish_module, left_bound, right_bound, give_target, begin_instance, end_instance, end_ordered, end_named, give_port, end_left, end_assign, start_value, give_index, give_second};
ghost use Rattle.lp_verilog_draft.specs.Verdicts.{Gives};

use crate::name_set::NameSet;
use crate::symbol::Symbol;
use lp_model::{BitRange, Bits, Direction, Module};
use lp_stack::Stack;
use lp_text::{NameId, NoMemory};
use lp_verilog_draft::{Declaring, Draft, Entry, Form, Joint, Off, Side, Stop, Value};
use lp_verilog_tokens::{Keyword, Token};
use sqlite_items::Items;
use std::alloc::Global;
use std::mem;

/// A reader of a netlist, which goes from token to token.
#[derive(Drop)]
pub struct Reader {
    /// What the text has to go on with.
    pub waiting: Stack<Symbol>,
    /// The modules so far.
    pub modules: Items<Module>,
    /// The names of these modules and of the one that is read.
    pub taken: NameSet,
    /// The module that is read.
    pub draft: Draft,
    /// The declaration that is read.
    pub declaring: Declaring,
    /// The instance that is read.
    pub joint: Joint,
    /// The value that is read.
    pub value: Value,
    /// The left side of the assignment that is read.
    pub left: Bits,
}

impl Reader {
    /// A reader at the front of a text, or there is no memory.
    pub fn new(alloc: Global) -> Result<Reader, NoMemory>
        ensures { IfOk result (λ m. m ≡ start) }
    {
        let mut waiting = Stack::new(alloc);
        waiting.push(Symbol::Source)?;
        Ok(Reader {
            waiting,
            modules: Items::new(alloc),
            taken: NameSet::new(alloc),
            draft: Draft::new(alloc, NameId(u32::MAX)),
            declaring: Declaring {
                form: Form::Wires,
                direction: Direction::Input,
                range: None,
                left: 0,
            },
            joint: Joint::new(alloc),
            value: Value::new(alloc),
            left: Bits::new(),
        })
    }

    /// The name of a module: off the form where the token is none, a duplicate where a module has it.
    pub fn begin_module(&mut self, alloc: Global, token: Token) -> Result<(), Stop>
        ensures { Gives result self.new (begin_module self.old token) }
    {
        match token {
            Token::Name(name) => {
                if self.taken.has(name) {
                    return Err(Stop::Off(Off::Duplicate(name)));
                }
                self.taken.add(name)?;
                self.draft = Draft::new(alloc, name);
                Ok(())
            }
            _ => Err(Stop::Off(Off::Syntax)),
        }
    }

    /// A port of the header, whose name begins at this byte: off the form where the token is none, a duplicate where
    /// the header has it.
    pub fn list_port(&mut self, at: usize, token: Token) -> Result<(), Stop>
        ensures { Gives result self.new (list_port self.old at token) }
    {
        match token {
            Token::Name(name) => self.draft.scope.add_new(name, Entry::listed(at)),
            _ => Err(Stop::Off(Off::Syntax)),
        }
    }

    /// What the names that follow are declared as, without a range so far.
    pub fn declare_as(&mut self, form: Form, direction: Direction)
        ensures { self.new ≡ declaring_as self.old form direction }
    {
        self.declaring = Declaring {
            form,
            direction,
            range: None,
            left: 0,
        };
    }

    /// The direction of the names that follow: off the form where the token is none.
    pub fn give_direction(&mut self, form: Form, token: Token) -> Result<(), Stop>
        ensures { Gives result self.new (give_direction self.old form token) }
    {
        match token {
            Token::Keyword(Keyword::Input) => {
                self.declare_as(form, Direction::Input);
                Ok(())
            }
            Token::Keyword(Keyword::Output) => {
                self.declare_as(form, Direction::Output);
                Ok(())
            }
            _ => Err(Stop::Off(Off::Syntax)),
        }
    }

    /// A name of a declaration, which begins at this byte: off the form or a duplicate as `Declaring` says.
    pub fn declare_name(&mut self, at: usize, token: Token) -> Result<(), Stop>
        ensures { Gives result self.new (declare_name self.old at token) }
    {
        match token {
            Token::Name(name) => self.declaring.declare(at, &mut self.draft.scope, name),
            _ => Err(Stop::Off(Off::Syntax)),
        }
    }

    /// Puts the module behind the others: off the form where a port of it has no direction.
    pub fn finish_module(&mut self, alloc: Global) -> Result<(), Stop>
        ensures { Gives result self.new (finish_module self.old) }
    {
        let module = self.draft.end(alloc)?;
        self.modules.push(module)?;
        Ok(())
    }

    /// The left bound of a range: off the form where the token is no number of 32 bits.
    pub fn left_bound(&mut self, token: Token) -> Result<(), Stop>
        ensures { Gives result self.new (left_bound self.old token) }
    {
        match token {
            Token::Number(Some(bound)) => {
                self.declaring.left = bound;
                Ok(())
            }
            _ => Err(Stop::Off(Off::Syntax)),
        }
    }

    /// The right bound of a range: off the form where the token is no number of 32 bits.
    pub fn right_bound(&mut self, token: Token) -> Result<(), Stop>
        ensures { Gives result self.new (right_bound self.old token) }
    {
        match token {
            Token::Number(Some(bound)) => {
                self.declaring.range = Some(BitRange {
                    left: self.declaring.left,
                    right: bound,
                });
                Ok(())
            }
            _ => Err(Stop::Off(Off::Syntax)),
        }
    }

    /// The target of the instances that follow: off the form where the token is no name.
    pub fn give_target(&mut self, token: Token) -> Result<(), Stop>
        ensures { Gives result self.new (give_target self.old token) }
    {
        match token {
            Token::Name(name) => {
                self.joint.target = name;
                Ok(())
            }
            _ => Err(Stop::Off(Off::Syntax)),
        }
    }

    /// The name of an instance, which begins at this byte: off the form where the token is none, a duplicate where
    /// the module has it.
    pub fn begin_instance(&mut self, at: usize, token: Token) -> Result<(), Stop>
        ensures { Gives result self.new (begin_instance self.old at token) }
    {
        match token {
            Token::Name(name) => {
                self.draft.scope.add_new(name, Entry::instance(at))?;
                self.joint.begin(name);
                self.value.set_side(Side::Connection);
                Ok(())
            }
            _ => Err(Stop::Off(Off::Syntax)),
        }
    }

    /// Puts the instance behind the others of its module, or there is no memory.
    pub fn end_instance(&mut self, alloc: Global) -> Result<(), NoMemory>
        ensures { OnOk result (self.new ≡ end_instance self.old) }
    {
        let instance = self.joint.take(alloc);
        self.draft.push_instance(instance)
    }

    /// Makes the value a connection by position, or there is no memory.
    pub fn end_ordered(&mut self, alloc: Global) -> Result<(), NoMemory>
        ensures { OnOk result (self.new ≡ end_ordered self.old) }
    {
        let bits = self.value.take(alloc)?;
        self.joint.push_ordered(bits)
    }

    /// Makes the value the connection of the port that was named, or there is no memory.
    pub fn end_named(&mut self, alloc: Global) -> Result<(), NoMemory>
        ensures { OnOk result (self.new ≡ end_named self.old) }
    {
        let bits = self.value.take(alloc)?;
        self.joint.push_named(bits)
    }

    /// The port that a connection names: off the form where the token is no name.
    pub fn give_port(&mut self, token: Token) -> Result<(), Stop>
        ensures { Gives result self.new (give_port self.old token) }
    {
        match token {
            Token::Name(name) => {
                self.joint.port = name;
                Ok(())
            }
            _ => Err(Stop::Off(Off::Syntax)),
        }
    }

    /// Makes the value the left side of an assign, or there is no memory.
    pub fn end_left(&mut self, alloc: Global) -> Result<(), NoMemory>
        ensures { OnOk result (self.new ≡ end_left self.old) }
    {
        self.left = self.value.take(alloc)?;
        self.value.set_side(Side::Right);
        Ok(())
    }

    /// Makes the value the right side and puts the assign behind the others, or there is no memory.
    pub fn end_assign(&mut self, alloc: Global) -> Result<(), NoMemory>
        ensures { OnOk result (self.new ≡ end_assign self.old) }
    {
        let right = self.value.take(alloc)?;
        let left = mem::replace(&mut self.left, Bits::new());
        self.draft.push_assign(left, right)
    }

    /// The front of a value at this byte: a name, a constant or a brace; off the form, or a duplicate, as `Scope`
    /// says.
    pub fn start_value(&mut self, at: usize, token: Token) -> Result<(), Stop>
        ensures { Gives result self.new (start_value self.old at token) }
    {
        match token {
            Token::Name(name) => {
                self.draft.scope.use_name(self.value.side, at, name)?;
                let range = self.draft.scope.range(name);
                self.value.set_subject(name, range);
                Ok(())
            }
            Token::Constant(size, value) => self.value.push_constant(size, value),
            Token::Mark(_) => Ok(()),
            _ => Err(Stop::Off(Off::Syntax)),
        }
    }

    /// The index of a select: off the form where the token is no number in the range of the vector.
    pub fn give_index(&mut self, token: Token) -> Result<(), Stop>
        ensures { Gives result self.new (give_index self.old token) }
    {
        match token {
            Token::Number(Some(index)) => self.value.set_index(index),
            _ => Err(Stop::Off(Off::Syntax)),
        }
    }

    /// The second index of a select: off the form where it is out of the range or against its direction.
    pub fn give_second(&mut self, token: Token) -> Result<(), Stop>
        ensures { Gives result self.new (give_second self.old token) }
    {
        match token {
            Token::Number(Some(index)) => self.value.many_bits(index),
            _ => Err(Stop::Off(Off::Syntax)),
        }
    }
}
