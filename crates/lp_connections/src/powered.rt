ghost use Rattle.std.specs.Prelude.{◌≡◌};
ghost use Rattle.lp_targets.specs.declared.target.Target.TheVariants as targets;
ghost use Rattle.lp_spec_design.specs.Netlists.{first};
ghost use Rattle.lp_connections.specs.Parts.{has_pg};
ghost use Rattle.lp_connections.specs.Numbered.{port_name, powered_pin_of, power_fault};

use crate::design::Design;
use lp_model::{Connection, Connections, Instance, InstanceRef, NetlistFault};
use lp_targets::Target;
use lp_text::NameId;

/// The name of the first connection that names a power or ground pin of the cell.
fn first_powered(design: &Design, place: u32, connections: &[Connection]) -> Option<NameId>
    ensures { result ≡ port_name (first (λ c. has_pg design.now place c.port.0) connections.now) }
{
    for connection in connections {
        if design.has_pg(place, connection.port) {
            return Some(connection.port);
        }
    }
    None
}

/// The first power or ground pin of a cell that is connected.
fn powered_name(design: &Design, place: u32, connections: &Connections) -> Option<NameId>
    ensures { result ≡ powered_pin_of design.now (targets.OfCell place) connections.now }
{
    match connections {
        Connections::Named(named) => first_powered(design, place, named.as_slice()),
        Connections::Ordered(_) => None,
    }
}

/// The first power or ground pin that is connected.
fn powered_pin(design: &Design, target: &Target, connections: &Connections) -> Option<NameId>
    ensures { result ≡ powered_pin_of design.now target.now connections.now }
{
    match target {
        Target::OfCell(place) => powered_name(design, *place, connections),
        Target::OfModule(_) => None,
    }
}

/// An instance connects a power or ground pin.
pub(crate) fn power_fault(
    design: &Design,
    parent: NameId,
    target: &Target,
    instance: &Instance,
) -> Option<NetlistFault>
    ensures { result ≡ power_fault design.now parent target.now instance.now }
{
    match powered_pin(design, target, &instance.connections) {
        Some(pin) => {
            let at = InstanceRef {
                parent,
                instance: instance.name,
            };
            Some(NetlistFault::AlreadyPowered { at, pin })
        }
        None => None,
    }
}
