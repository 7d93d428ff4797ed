ghost use Rattle.std.specs.Prelude.{◌≡◌, [], ◌∷◌, ◌++◌, ◌+◌, ◌≤◌, length, take, drop, slice_get, option_map, OnOk, OnErr};
ghost use Rattle.lp_templates.specs.Views.{child_view, cell_view, shown_view, with_statement};
ghost use Rattle.lp_spec_layout.specs.Parts as parts;

use crate::run::Joints;
use lp_model::PinNet;
use lp_targets::Size;
use lp_text::NoMemory;
use sqlite_items::at;
use std::alloc::Global;
use std::marker::Model;

/// An instance of a module. It takes 64 bytes.
#[derive(Drop)]
pub struct Child {
    /// From output bits to places outside.
    pub outputs: Joints,
    /// From places outside to input bits.
    pub inputs: Joints,
    /// What lies between the beginning of the instance in which it stands and its own.
    pub before: Size,
    /// The module: counts the modules of the netlist from 0.
    pub of: u32,
}

/// An instance of a cell, whose row of pins stands among those of its module. It takes 24 bytes.
#[derive(Clone, Copy)]
pub(crate) struct CellRow {
    /// Where its row begins.
    pub start: usize,
    /// How many pins there are: signal pins, then power and ground pins.
    pub count: usize,
    /// The cell: counts the cells of the library from 0.
    pub of: u32,
    /// How many cell instances lie before it.
    pub before: u32,
}

/// A statement of a module.
#[derive(Clone, Copy)]
pub(crate) enum Statement {
    /// An instance of a module, by its place among these.
    OfModule(usize),
    /// An instance of a cell.
    OfCell(CellRow),
}

/// A statement as it is held.
#[derive(Clone, Copy)]
pub enum Shown<'a> {
    /// An instance of a module.
    OfModule(&'a Child),
    /// An instance of a cell: its number, how many cell instances lie before it, and what is at its pins.
    OfCell(u32, u32, &'a [PinNet]),
}

/// A module whose bits are resolved: contracts see its statements and its assigns.
#[derive(Drop)]
pub struct Template {
    statements: Vec<Statement>,
    children: Vec<Child>,
    pins: Vec<PinNet>,
    assigns: Joints,
}

impl Model for Template {
    ghost use Rattle.lp_spec_layout.specs.Parts as parts;
    ghost use Rattle.lp_templates.specs.Views.{statements_view, AreHeld};

    ghost Value = { parts.Template };

    ghost view = { λ t. record { statements = statements_view t.children.items t.pins.items t.statements.items; assigns = t.assigns } };

    ghost invariant = { λ t. AreHeld t.children.items t.pins.items t.statements.items };
}

/// So many pins from one on.
fn part(pins: &[PinNet], start: usize, count: usize) -> &[PinNet]
    requires { start + count ≤ length pins.now }
    ensures { result.now ≡ take count (drop start pins.now) }
{
    &pins[start..start + count]
}

impl Template {
    /// A module of these assigns without statements.
    pub(crate) fn new(alloc: Global, assigns: Joints) -> Template
        ensures { result ≡ record { statements = []; assigns = assigns } }
    {
        Template {
            statements: Vec::new(alloc),
            children: Vec::new(alloc),
            pins: Vec::new(alloc),
            assigns,
        }
    }

    /// Puts an instance of a module behind the other statements.
    pub(crate) fn push_child(&mut self, child: Child) -> Result<(), NoMemory>
        ensures { OnOk result (self.new ≡ with_statement self.old (parts.OfModule (child_view child))) }
    {
        let place = self.children.as_slice().len();
        self.children.push(child)?;
        self.statements.push(Statement::OfModule(place))?;
        Ok(())
    }

    /// Puts an instance of a cell behind the other statements: its number, how many cell instances lie before it, and
    /// what is at its pins.
    pub(crate) fn push_cell(&mut self, of: u32, before: u32, row: &[PinNet]) -> Result<(), NoMemory>
        ensures { OnOk result (self.new ≡ with_statement self.old (parts.OfCell (cell_view of before row.now))) }
    {
        let start = self.pins.as_slice().len();
        let count = row.len();
        self.pins.extend_from_slice(row)?;
        self.statements.push(Statement::OfCell(CellRow {
            start,
            count,
            of,
            before,
        }))?;
        Ok(())
    }

    /// How many statements there are.
    pub fn len(&self) -> usize
        ensures { result ≡ length self.now.statements }
    {
        self.statements.len()
    }

    /// A statement, counted from 0. Takes constant time.
    pub fn statement(&self, place: usize) -> Option<Shown<'_>>
        ensures { option_map shown_view result ≡ slice_get self.now.statements place }
    {
        match at(self.statements.as_slice(), place)? {
            Statement::OfModule(child) => {
                let child = at(self.children.as_slice(), *child)?;
                Some(Shown::OfModule(child))
            }
            Statement::OfCell(row) => {
                let pins = part(self.pins.as_slice(), row.start, row.count);
                Some(Shown::OfCell(row.of, row.before, pins))
            }
        }
    }

    /// The assigns.
    pub fn assigns(&self) -> &Joints
        ensures { result.now ≡ self.now.assigns }
    {
        &self.assigns
    }
}
