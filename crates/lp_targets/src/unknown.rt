ghost use Rattle.std.specs.Prelude.{◌≡◌, is_none};
ghost use Rattle.std.specs.Option.{option_copied};
ghost use Rattle.lp_spec_design.specs.Netlists.{first};
ghost use Rattle.lp_targets.specs.Numbered.{target_of, unknown_in, first_unknown};

use crate::index::Index;
use lp_model::{Instance, InstanceRef, Module};

/// The first instance that is of nothing.
fn unknown<'a>(index: &Index, instances: &'a [Instance]) -> Option<&'a Instance>
    ensures { option_copied result ≡ first (λ i. is_none (target_of index.now.modules index.now.cells i)) instances.now }
{
    for instance in instances {
        if index.target(instance.target).is_none() {
            return Some(instance);
        }
    }
    None
}

/// The first instance of a module that is of nothing.
fn unknown_in(index: &Index, source: &Module) -> Option<InstanceRef>
    ensures { result ≡ unknown_in index.now.modules index.now.cells source.now }
{
    match unknown(index, source.instances.as_slice()) {
        Some(instance) => Some(InstanceRef {
            parent: source.name,
            instance: instance.name,
        }),
        None => None,
    }
}

/// The first instance of a netlist that is of nothing.
pub(crate) fn first_unknown(index: &Index, modules: &[Module]) -> Option<InstanceRef>
    ensures { result ≡ first_unknown index.now.modules index.now.cells modules.now }
{
    for module in modules {
        let at = unknown_in(index, module);
        if at.is_some() {
            return at;
        }
    }
    None
}
