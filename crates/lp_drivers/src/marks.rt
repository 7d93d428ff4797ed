ghost use Rattle.std.specs.Prelude.{◌≡◌, ◌<◌, ◌≤◌, length, IfOk, slice_get, slice_index_or};
ghost use Rattle.lp_spec_design.specs.Netlists.{upward};
ghost use Rattle.lp_spec_design.specs.Graph.{pairs, some_of};
ghost use Rattle.lp_spec_drivers.specs.Drivers.{joint_places, pin_place};
ghost use Rattle.lp_templates.specs.Views.{shown_view};
ghost use Rattle.lp_drivers.specs.Seen.{none_seen, met, see_all, lower_all, known, twice_with};
ghost use Rattle.lp_drivers.specs.Table.{input_run, twice_on_top};
ghost use Rattle.lp_drivers.specs.Cells.{place_at_pin, places_by, places_at};

use crate::widths::bit_count;
use lp_model::{Direction, PinNet, Port};
use lp_templates::{Joints, Shown, Template};
use lp_text::NoMemory;
use sqlite_items::{Items, at};
use std::alloc::Global;
use std::marker::Model;

/// The driven places of a module, up to the first that is driven twice: contracts see that place, or how many places
/// there are, and whether each place before it is driven.
#[derive(Drop)]
pub(crate) struct Marks {
    first: usize,
    driven: Vec<bool>,
}

impl Model for Marks {
    ghost use Rattle.std.specs.Prelude.{◌≤◌, length};
    ghost use Rattle.lp_drivers.specs.Seen.{Seen};

    ghost Value = { Seen };

    ghost view = { λ m. (m.first, m.driven.items) };

    ghost invariant = { λ m. m.first ≤ length m.driven.items };
}

impl Marks {
    /// As many places, of which none is driven.
    pub(crate) fn new(alloc: Global, count: usize) -> Result<Marks, NoMemory>
        ensures { IfOk result (λ m. m ≡ none_seen count) }
    {
        let driven = vec![in alloc; false; count]?;
        Ok(Marks {
            first: count,
            driven,
        })
    }

    /// Sees a place before the first.
    fn meet(&mut self, place: usize)
        requires { place < self.old.0 }
        ensures { self.new ≡ met self.old place }
    {
        if self.driven[place] {
            self.first = place;
        } else {
            self.driven[place] = true;
        }
    }

    /// Sees so many places from one on, up to the first.
    fn see_run(&mut self, to: u32, count: u32)
        ensures { self.new ≡ see_all self.old (upward count to) }
    {
        let start = to as usize;
        for place in start..start + count as usize {
            if self.first <= place {
                return;
            }
            self.meet(place);
        }
    }

    /// Sees the places that joints drive.
    pub(crate) fn see_joints(&mut self, joints: &Joints)
        ensures { self.new ≡ see_all self.old (joint_places joints.now) }
    {
        let runs = joints.runs();
        for run in runs {
            self.see_run(run.to, run.count);
        }
    }

    /// Sees the place at a pin, where the pin drives.
    fn see_pin(&mut self, drives: Option<bool>, net: PinNet)
        ensures { self.new ≡ see_all self.old (place_at_pin drives net) }
    {
        if let (Some(true), PinNet::Node(node)) = (drives, net) {
            self.see_run(node.0, 1);
        }
    }

    /// Sees the places at those pins of a row that drive.
    fn see_row(&mut self, drives: &[bool], row: &[PinNet])
        ensures { self.new ≡ see_all self.old (some_of pin_place (pairs drives.now row.now)) }
    {
        for (pin, net) in row.iter().enumerate() {
            self.see_pin(at(drives, pin).copied(), *net);
        }
    }

    /// Sees the places that a statement drives, by the pins of each cell that drive.
    fn see_statement(&mut self, cells: &[Items<bool>], statement: Shown<'_>)
        ensures { self.new ≡ see_all self.old (places_by cells.now (shown_view statement.entry)) }
    {
        match statement {
            Shown::OfModule(child) => self.see_joints(&child.outputs),
            Shown::OfCell(of, _, row) => {
                if let Some(drives) = at(cells, of as usize) {
                    self.see_row(drives.as_slice(), row);
                }
            }
        }
    }

    /// Sees the places that the statement at a place drives.
    pub(crate) fn see_at(&mut self, cells: &[Items<bool>], template: &Template, place: usize)
        ensures { self.new ≡ see_all self.old (places_at cells.now (slice_get template.now.statements place)) }
    {
        if let Some(statement) = template.statement(place) {
            self.see_statement(cells, statement);
        }
    }

    /// The least of a place, which is not behind the first, and the driven places among so many from one on.
    fn lower_run(&self, least: usize, start: usize, count: usize) -> usize
        requires { least ≤ self.now.0 }
        ensures { result ≡ lower_all self.now.1 least (upward count start) }
    {
        for place in start..start.saturating_add(count) {
            if least <= place {
                return least;
            }
            if self.driven[place] {
                return place;
            }
        }
        least
    }

    /// The earlier of the first place and the first driven one that joints drive too.
    fn lower_joints(&self, joints: &Joints) -> usize
        ensures { result ≡ lower_all self.now.1 self.now.0 (joint_places joints.now) }
    {
        let mut least = self.first;
        let runs = joints.runs();
        for run in runs {
            least = self.lower_run(least, run.to as usize, run.count as usize);
        }
        least
    }

    /// A place, where it is one.
    fn known(&self, place: usize) -> Option<usize>
        ensures { result ≡ known (length self.now.1) place }
    {
        if place < self.driven.len() {
            Some(place)
        } else {
            None
        }
    }

    /// The first place that is driven twice, with those that joints drive.
    pub(crate) fn twice_with(&self, joints: &Joints) -> Option<usize>
        ensures { result ≡ twice_with self.now (joint_places joints.now) }
    {
        self.known(self.lower_joints(joints))
    }

    /// The least of a place and the driven places among a port's, where it is an input.
    fn lower_port(&self, least: usize, direction: Direction, start: usize, count: usize) -> usize
        requires { least ≤ self.now.0 }
        ensures { result ≡ lower_all self.now.1 least (input_run direction start count) }
    {
        match direction {
            Direction::Input => self.lower_run(least, start, count),
            Direction::Output => least,
        }
    }

    /// The first place that is driven twice, where all input bits of the module's ports are driven from outside.
    pub(crate) fn twice_on_top(&self, ports: &[Port]) -> Option<usize>
        ensures { result ≡ twice_on_top self.now ports.now }
    {
        let mut least = self.first;
        let mut start: usize = 0;
        for port in ports {
            let count = bit_count(port.range);
            least = self.lower_port(least, port.direction, start, count);
            start = start.saturating_add(count);
        }
        self.known(least)
    }
}
