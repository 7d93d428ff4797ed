ghost use Rattle.std.specs.Prelude.{◌≡◌, map, IfOk};
ghost use Rattle.lp_spec_design.specs.Graph.{some_of};
ghost use Rattle.lp_targets.specs.Numbered.{target_of, row_in};

use crate::index::Index;
use crate::target::Target;
use lp_model::{Instance, Module};
use lp_text::NoMemory;
use sqlite_items::Items;
use std::alloc::Global;

/// What the instances of a module are of; one of nothing is left out.
fn row(alloc: Global, index: &Index, instances: &[Instance]) -> Result<Items<Target>, NoMemory>
    ensures { IfOk result (λ r. r ≡ some_of (target_of index.now.modules index.now.cells) instances.now) }
{
    let mut row = Items::new(alloc);
    for instance in instances {
        if let Some(target) = index.target(instance.target) {
            row.push(target)?;
        }
    }
    Ok(row)
}

/// What the instances of each module are of; one of nothing is left out.
pub(crate) fn rows(
    alloc: Global,
    index: &Index,
    modules: &[Module],
) -> Result<Items<Items<Target>>, NoMemory>
    ensures { IfOk result (λ rs. rs ≡ map (row_in index.now.modules index.now.cells) modules.now) }
{
    let mut rows = Items::new(alloc);
    for module in modules {
        let row = row(alloc, index, module.instances.as_slice())?;
        rows.push(row)?;
    }
    Ok(rows)
}
