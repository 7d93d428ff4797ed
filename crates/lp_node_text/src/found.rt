ghost use Rattle.std.specs.Prelude.{◌≡◌};
ghost use Rattle.lp_node_text.specs.Numbered.{in_instance, found_in, found_at};

use crate::bits::{Own, own_bit};
use crate::entered::{Entered, last_entered};
use lp_model::{Instance, Module, NodeName};
use lp_templates::Template;
use lp_text::NameId;
use sqlite_items::at;

/// A place of an instance of a module.
#[derive(Clone, Copy)]
pub(crate) struct Inside {
    /// The name of the instance.
    pub name: NameId,
    /// Its module: counts the modules of the netlist from 0.
    pub of: u32,
    /// The net bit, counted from the first one of the instance.
    pub place: usize,
}

/// Where the net bit at a place of a module stands.
#[derive(Clone, Copy)]
pub(crate) enum Found {
    /// It is one of the module's own.
    Bit(NodeName),
    /// It is in an instance.
    Inside(Inside),
}

/// A place in the instance of a statement.
fn in_instance(instances: &[Instance], place: usize, entered: Option<Entered>) -> Option<Found>
    ensures { result ≡ in_instance instances.now place entered }
{
    let entered = entered?;
    let instance = at(instances, entered.number)?;
    Some(Found::Inside(Inside {
        name: instance.name,
        of: entered.of,
        place: place.saturating_sub(entered.before as usize),
    }))
}

/// Where the net bit at a place of a module stands, by its template.
fn found_in(source: &Module, template: &Template, place: usize) -> Option<Found>
    ensures { result ≡ found_in source.now template.now place }
{
    match own_bit(source, place) {
        Own::Bit(bit) => Some(Found::Bit(bit)),
        Own::Behind(_) => {
            let entered = last_entered(template, place);
            in_instance(source.instances.as_slice(), place, entered)
        }
    }
}

/// Where the net bit at a place of a module stands, by the number of the module.
pub(crate) fn found_at(
    modules: &[Module],
    templates: &[Template],
    of: usize,
    place: usize,
) -> Option<Found>
    ensures { result ≡ found_at modules.now templates.now of place }
{
    let source = at(modules, of)?;
    let template = at(templates, of)?;
    found_in(source, template, place)
}
