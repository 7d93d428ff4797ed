ghost use Rattle.std.specs.Prelude.{◌≡◌};
ghost use Rattle.lp_verilog_draft.specs.Scopes.{declare, same_range, agrees, add_new, give_direction, give_wire, headed, wire, listed, use_new, use_instance, use_net, use_old, use_by, use_name, settle, range_in, instance_entry, found};
ghost use Rattle.lp_verilog_draft.specs.Verdicts.{Gives};

use crate::scope::{Entry, Kind, Scope};
use crate::stop::{Off, Stop};
use crate::value::Side;
use lp_model::{BitRange, Direction};
use lp_text::NameId;

/// What a declaration declares.
#[derive(Clone, Copy)]
pub enum Form {
    /// Ports in a header.
    Header,
    /// The direction of ports that the header lists.
    Ports,
    /// Wires.
    Wires,
}

/// The declaration that is read.
#[derive(Clone, Copy)]
pub struct Declaring {
    pub form: Form,
    pub direction: Direction,
    pub range: Option<BitRange>,
    /// The left bound of a range that is read.
    pub left: u32,
}

fn same_range(a: Option<BitRange>, b: Option<BitRange>) -> bool
    ensures { result ≡ same_range a b }
{
    match (a, b) {
        (None, None) => true,
        (Some(a), Some(b)) => a.left == b.left && a.right == b.right,
        _ => false,
    }
}

impl Declaring {
    /// Whether the range fits what is settled of a name.
    fn agrees(&self, entry: &Entry) -> bool
        ensures { result ≡ agrees self.now entry.now }
    {
        !entry.fixed || same_range(entry.range, self.range)
    }

    fn give_direction(
        &self,
        scope: &mut Scope,
        name: NameId,
        old: Option<Entry>,
    ) -> Result<(), Stop>
        ensures { Gives result scope.new (give_direction self.now scope.old name old) }
    {
        match old {
            Some(entry) if matches!(entry.kind, Kind::Port) => {
                if entry.direction.is_none() && self.agrees(&entry) {
                    scope.put(
                        name,
                        Entry {
                            direction: Some(self.direction),
                            range: self.range,
                            fixed: true,
                            ..entry
                        },
                    )?;
                    Ok(())
                } else {
                    Err(Stop::Off(Off::Duplicate(name)))
                }
            }
            _ => Err(Stop::Off(Off::Syntax)),
        }
    }

    fn give_wire(
        &self,
        at: usize,
        scope: &mut Scope,
        name: NameId,
        old: Option<Entry>,
    ) -> Result<(), Stop>
        ensures { Gives result scope.new (give_wire self.now at scope.old name old) }
    {
        match old {
            None => {
                scope.put(name, Entry::wire(self.range, at))?;
                Ok(())
            }
            Some(entry) => {
                if matches!(entry.kind, Kind::Port) && (!entry.wired && self.agrees(&entry)) {
                    scope.put(
                        name,
                        Entry {
                            range: self.range,
                            fixed: true,
                            wired: true,
                            ..entry
                        },
                    )?;
                    Ok(())
                } else {
                    Err(Stop::Off(Off::Duplicate(name)))
                }
            }
        }
    }

    /// A name in this declaration, whose first byte has this number.
    pub fn declare(&self, at: usize, scope: &mut Scope, name: NameId) -> Result<(), Stop>
        ensures { Gives result scope.new (declare self.now at scope.old name) }
    {
        match self.form {
            Form::Header => scope.add_new(
                name,
                Entry {
                    kind: Kind::Port,
                    direction: Some(self.direction),
                    range: self.range,
                    fixed: true,
                    wired: false,
                    at,
                },
            ),
            Form::Ports => {
                let old = scope.find(name);
                self.give_direction(scope, name, old)
            }
            Form::Wires => {
                let old = scope.find(name);
                self.give_wire(at, scope, name, old)
            }
        }
    }
}

impl Entry {
    /// A port that a header lists.
    pub fn listed(at: usize) -> Entry
        ensures { result ≡ listed at }
    {
        Entry {
            kind: Kind::Port,
            direction: None,
            range: None,
            fixed: false,
            wired: false,
            at,
        }
    }

    /// A wire whose name begins at this byte of the text.
    pub fn wire(range: Option<BitRange>, at: usize) -> Entry
        ensures { result ≡ wire range at }
    {
        Entry {
            kind: Kind::Wire,
            direction: None,
            range,
            fixed: true,
            wired: true,
            at,
        }
    }

    /// An instance whose name begins at this byte of the text.
    pub fn instance(at: usize) -> Entry
        ensures { result ≡ instance_entry at }
    {
        Entry {
            kind: Kind::Instance,
            direction: None,
            range: None,
            fixed: true,
            wired: true,
            at,
        }
    }
}

impl Scope {
    /// A name that nothing stands for yet.
    pub fn add_new(&mut self, name: NameId, entry: Entry) -> Result<(), Stop>
        ensures { Gives result self.new (add_new self.old name entry (found self.old name)) }
    {
        match self.find(name) {
            None => {
                self.put(name, entry)?;
                Ok(())
            }
            Some(_) => Err(Stop::Off(Off::Duplicate(name))),
        }
    }

    fn use_new(&mut self, side: Side, at: usize, name: NameId) -> Result<(), Stop>
        ensures { Gives result self.new (use_new side at self.old name) }
    {
        match side {
            Side::Right => Err(Stop::Off(Off::Syntax)),
            Side::Left | Side::Connection => {
                self.put(name, Entry::wire(None, at))?;
                Ok(())
            }
        }
    }

    fn use_old(&mut self, side: Side, name: NameId, entry: Entry) -> Result<(), Stop>
        ensures { Gives result self.new (use_old entry.kind side self.old name entry) }
    {
        match (entry.kind, side) {
            (Kind::Instance, Side::Right) => Err(Stop::Off(Off::Syntax)),
            (Kind::Instance, _) => Err(Stop::Off(Off::Duplicate(name))),
            _ if entry.fixed => Ok(()),
            (_, Side::Right) => Err(Stop::Off(Off::Syntax)),
            _ => {
                self.put(
                    name,
                    Entry {
                        fixed: true,
                        ..entry
                    },
                )?;
                Ok(())
            }
        }
    }

    /// A name in a value.
    pub fn use_name(&mut self, side: Side, at: usize, name: NameId) -> Result<(), Stop>
        ensures { Gives result self.new (use_name side at self.old name) }
    {
        match self.find(name) {
            None => self.use_new(side, at, name),
            Some(entry) => self.use_old(side, name, entry),
        }
    }

    /// The range of a name, none where it is a scalar or nothing.
    pub fn range(&self, name: NameId) -> Option<BitRange>
        ensures { result ≡ range_in self.now name }
    {
        match self.find(name) {
            None => None,
            Some(entry) => entry.range,
        }
    }
}
