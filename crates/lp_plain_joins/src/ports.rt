ghost use Rattle.std.specs.Prelude.{◌≡◌, ◌+◌, ◌<◌, ◌≤◌, [], ◌∷◌, ◌++◌, Some, length, IfOk, OnOk};
ghost use Rattle.lp_text.specs.Limits.{most_names};
ghost use Rattle.lp_text.specs.Texts.{Grown, place_of};
ghost use Rattle.lp_spec_plain_module.specs.Netlists.{supply_port};
ghost use Rattle.lp_plain_joins.specs.Joins.{port_in};

use crate::joins::Supplies;
use lp_model::{Direction, Port};
use lp_text::{NameId, Names, NamesFault, NoMemory};
use sqlite_items::Items;
use std::alloc::Global;

/// The number of a name, where the table has room for one more.
fn intern(names: &mut Names, name: &str) -> Result<NameId, NoMemory>
    requires { length names.old < most_names }
    ensures number { IfOk result (λ id. place_of name.now names.new ≡ Some id.0) }
    ensures grown { Grown names.old names.new }
    ensures few { length names.new ≤ length names.old + 1 }
{
    match names.intern(name) {
        Ok(id) => Ok(id),
        Err(NamesFault::NoMemory) => Err(NoMemory),
        Err(NamesFault::Full) => unreachable!(),
    }
}

/// The port that carries a supply port of the intent. The table has room for its name.
pub fn supply_port(alloc: Global, names: &mut Names, origin: &str) -> Result<NameId, NoMemory>
    requires { length names.old < most_names }
    ensures number { IfOk result (λ id. place_of (supply_port origin.now) names.new ≡ Some id.0) }
    ensures grown { Grown names.old names.new }
    ensures few { length names.new ≤ length names.old + 1 }
{
    let mut name = String::from_str(alloc, "lp_v_")?;
    name.push_str(origin)?;
    intern(names, name.as_str())
}

/// An input of one bit.
fn input(name: NameId) -> Port
    ensures { result ≡ port_in name }
{
    Port {
        name,
        range: None,
        direction: Direction::Input,
    }
}

/// Adds the two ports behind the module's own.
pub fn add_ports(supplies: Supplies, ports: &mut Items<Port>) -> Result<(), NoMemory>
    ensures { OnOk result (ports.new ≡ ports.old ++ port_in supplies.power ∷ port_in supplies.gnd ∷ []) }
{
    ports.push(input(supplies.power))?;
    ports.push(input(supplies.gnd))?;
    Ok(())
}
