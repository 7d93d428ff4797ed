ghost use Rattle.std.specs.Prelude.{◌≡◌, ◌++◌, map, IfOk, OnOk};
ghost use Rattle.lp_spec_pins.specs.Pins.{is_power};
ghost use Rattle.lp_plain_joins.specs.Joins.{join_of, joined_instance, joins_for, with_more};

use lp_model::{Bit, Bits, Cell, Connection, Connections, Instance, PgKind, PgPin};
use lp_plain_index::CellIndex;
use lp_text::{NameId, NoMemory};
use sqlite_items::Items;

/// The two ports that carry the supply of a design.
#[derive(Clone, Copy)]
pub struct Supplies {
    /// The port of the power.
    pub power: NameId,
    /// The port of the ground.
    pub gnd: NameId,
}

/// Whether a pin of this type is a power pin; else it is a ground pin.
fn is_power(kind: PgKind) -> bool
    ensures { result ≡ is_power kind }
{
    matches!(
        kind,
        PgKind::PrimaryPower
            | PgKind::BackupPower
            | PgKind::InternalPower
            | PgKind::Nwell
            | PgKind::Deepnwell
    )
}

/// A power or ground pin, joined to its port.
fn join_of(supplies: Supplies, pin: &PgPin) -> Connection
    ensures { result ≡ join_of supplies pin.now }
{
    let port = if is_power(pin.kind) {
        supplies.power
    } else {
        supplies.gnd
    };
    Connection {
        bits: Bits::one(Bit::Net(port)),
        port: pin.name,
    }
}

/// Joins the power and ground pins of a cell, behind the connections so far.
fn add_joins(
    supplies: Supplies,
    cell: &Cell,
    connections: &mut Items<Connection>,
) -> Result<(), NoMemory>
    ensures { OnOk result (connections.new ≡ connections.old ++ map (join_of supplies) cell.now.pgs) }
{
    for pin in cell.pgs.as_slice() {
        connections.push(join_of(supplies, pin))?;
    }
    Ok(())
}

/// Connections by name with the joins of a cell. Those by position stay as they are.
fn joined(
    supplies: Supplies,
    cell: &Cell,
    connections: Connections,
) -> Result<Connections, NoMemory>
    ensures { IfOk result (λ cs. cs ≡ with_more (map (join_of supplies) cell.now.pgs) connections) }
{
    match connections {
        Connections::Named(mut named) => {
            add_joins(supplies, cell, &mut named)?;
            Ok(Connections::Named(named))
        }
        Connections::Ordered(values) => Ok(Connections::Ordered(values)),
    }
}

/// An instance with the joins of its cell. One of no known cell stays as it is.
pub fn joined_instance(
    index: &CellIndex<'_>,
    supplies: Supplies,
    instance: Instance,
) -> Result<Instance, NoMemory>
    ensures { IfOk result (λ x. x ≡ joined_instance index.now supplies instance) }
{
    match index.numbered(instance.target) {
        None => Ok(instance),
        Some(cell) => Ok(Instance {
            name: instance.name,
            target: instance.target,
            connections: joined(supplies, cell, instance.connections)?,
        }),
    }
}
