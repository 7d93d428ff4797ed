ghost use Rattle.std.specs.Prelude.{◌≡◌, []};
ghost use Rattle.lp_fault_text.specs.Views.{graph_view, intent_view, no_graph, no_intent};

use lp_model::{
    Cell, Domain, Edge, Graph, Inst, Intent, Leaf, Library, Module, Node, PowerSwitch, Strategy,
    SupplyPort, SupplySet,
};
use lp_text::Names;
use std::marker::Model;

/// The tables of a graph.
#[derive(Drop)]
pub(crate) struct GraphTables<'a> {
    pub(crate) instances: &'a [Inst],
    pub(crate) leaves: &'a [Leaf],
    pub(crate) nodes: &'a [Node],
    pub(crate) edges: &'a [Edge],
    pub(crate) modules: &'a [Module],
}

impl<'a> Model for GraphTables<'a> {
    ghost use Rattle.lp_fault_text.specs.Views.{GraphView};

    ghost Value = { GraphView };

    ghost view = { λ g. record { instances = g.instances.now; leaves = g.leaves.now; nodes = g.nodes.now; edges = g.edges.now; modules = g.modules.now } };
}

impl<'a> GraphTables<'a> {
    fn none() -> GraphTables<'a>
        ensures { result ≡ no_graph }
    {
        GraphTables {
            instances: &[],
            leaves: &[],
            nodes: &[],
            edges: &[],
            modules: &[],
        }
    }

    fn of(graph: &'a Graph) -> GraphTables<'a>
        ensures { result ≡ graph_view graph.now }
    {
        GraphTables {
            instances: graph.instances.as_slice(),
            leaves: graph.leaves.as_slice(),
            nodes: graph.nodes.as_slice(),
            edges: graph.edges.as_slice(),
            modules: graph.source.modules.as_slice(),
        }
    }
}

/// The tables of a power intent.
#[derive(Drop)]
pub(crate) struct IntentTables<'a> {
    pub(crate) domains: &'a [Domain],
    pub(crate) sets: &'a [SupplySet],
    pub(crate) ports: &'a [SupplyPort],
    pub(crate) switches: &'a [PowerSwitch],
    pub(crate) strategies: &'a [Strategy],
}

impl<'a> Model for IntentTables<'a> {
    ghost use Rattle.lp_fault_text.specs.Views.{IntentView};

    ghost Value = { IntentView };

    ghost view = { λ i. record { domains = i.domains.now; sets = i.sets.now; ports = i.ports.now; switches = i.switches.now; strategies = i.strategies.now } };
}

impl<'a> IntentTables<'a> {
    fn none() -> IntentTables<'a>
        ensures { result ≡ no_intent }
    {
        IntentTables {
            domains: &[],
            sets: &[],
            ports: &[],
            switches: &[],
            strategies: &[],
        }
    }

    fn of(intent: &'a Intent) -> IntentTables<'a>
        ensures { result ≡ intent_view intent.now }
    {
        IntentTables {
            domains: intent.domains.as_slice(),
            sets: intent.sets.as_slice(),
            ports: intent.ports.as_slice(),
            switches: intent.switches.as_slice(),
            strategies: intent.strategies.as_slice(),
        }
    }
}

/// What is known of a design where a fault is found: the table of names, and what the stages before made. Contracts
/// see its lists.
#[derive(Drop)]
pub struct Known<'a> {
    pub(crate) names: &'a Names,
    pub(crate) cells: &'a [Cell],
    pub(crate) graph: GraphTables<'a>,
    pub(crate) powered: GraphTables<'a>,
    pub(crate) intent: IntentTables<'a>,
}

impl<'a> Model for Known<'a> {
    ghost use Rattle.lp_fault_text.specs.Views.{KnownView};

    ghost Value = { KnownView };

    ghost view = { λ k. record { names = k.names.now; cells = k.cells.now; graph = k.graph; powered = k.powered; intent = k.intent } };
}

impl<'a> Known<'a> {
    /// The names alone.
    pub fn new(names: &'a Names) -> Known<'a>
        ensures { result ≡ record { names = names.now; cells = []; graph = no_graph; powered = no_graph; intent = no_intent } }
    {
        Known {
            names,
            cells: &[],
            graph: GraphTables::none(),
            powered: GraphTables::none(),
            intent: IntentTables::none(),
        }
    }

    /// The same with a library.
    pub fn with_library(self, library: &'a Library) -> Known<'a>
        ensures { result ≡ record self.entry { cells = library.now.cells } }
    {
        Known {
            cells: library.cells.as_slice(),
            ..self
        }
    }

    /// The same with the graph to which the intent belongs.
    pub fn with_graph(self, graph: &'a Graph) -> Known<'a>
        ensures { result ≡ record self.entry { graph = graph_view graph.now } }
    {
        Known {
            graph: GraphTables::of(graph),
            ..self
        }
    }

    /// The same with the graph of a powered netlist that is compared with the source.
    pub fn with_powered(self, graph: &'a Graph) -> Known<'a>
        ensures { result ≡ record self.entry { powered = graph_view graph.now } }
    {
        Known {
            powered: GraphTables::of(graph),
            ..self
        }
    }

    /// The same with a power intent.
    pub fn with_intent(self, intent: &'a Intent) -> Known<'a>
        ensures { result ≡ record self.entry { intent = intent_view intent.now } }
    {
        Known {
            intent: IntentTables::of(intent),
            ..self
        }
    }
}
