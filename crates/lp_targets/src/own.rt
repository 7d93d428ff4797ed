ghost use Rattle.std.specs.Prelude.{◌≡◌, ◌+◌, min, map, length, sum_by, replicate, IfOk};
ghost use Rattle.lp_spec_faults.specs.Modules.{bit_count};
ghost use Rattle.lp_targets.specs.Children.{cells_of};
ghost use Rattle.lp_targets.specs.Sizes.{module_bits};

use crate::target::Target;
use lp_model::{BitRange, Module, NetDecl, Port};
use lp_text::NoMemory;
use sqlite_items::Items;
use std::alloc::Global;

/// The bits of a port or net.
fn bit_count(range: Option<BitRange>) -> u64
    ensures { result ≡ bit_count range }
{
    match range {
        None => 1,
        Some(range) => {
            let left = range.left as u64;
            let right = range.right as u64;
            if left <= right {
                right + 1 - left
            } else {
                left + 1 - right
            }
        }
    }
}

/// A sum, up to a limit.
pub(crate) fn capped(a: u64, b: u64, limit: u64) -> u64
    ensures { result ≡ min limit (a + b) }
{
    a.saturating_add(b).min(limit)
}

fn port_bits(ports: &[Port], limit: u64) -> u64
    ensures { result ≡ min limit (sum_by (λ p. bit_count p.range) ports.now) }
{
    let mut total = 0;
    for port in ports {
        total = capped(total, bit_count(port.range), limit);
    }
    total
}

fn net_bits(nets: &[NetDecl], limit: u64) -> u64
    ensures { result ≡ min limit (sum_by (λ n. bit_count n.range) nets.now) }
{
    let mut total = 0;
    for net in nets {
        total = capped(total, bit_count(net.range), limit);
    }
    total
}

/// The net bits that a module declares, up to a limit: a single vector may have 4,294,967,296.
fn module_bits(source: &Module, limit: u64) -> u64
    ensures { result ≡ min limit (module_bits source.now) }
{
    let ports = port_bits(source.ports.as_slice(), limit);
    let nets = net_bits(source.nets.as_slice(), limit);
    capped(ports, nets, limit)
}

/// The net bits that each module declares, up to a limit.
pub(crate) fn own_bits(alloc: Global, modules: &[Module], limit: u64) -> Result<Vec<u64>, NoMemory>
    ensures { IfOk result (λ own. own.items ≡ map (λ m. min limit (module_bits m)) modules.now) }
{
    let mut own = Vec::new(alloc);
    for module in modules {
        own.push(module_bits(module, limit))?;
    }
    Ok(own)
}

/// How many cells a row of targets has.
fn cell_count(row: &[Target]) -> u64
    ensures { result ≡ length (cells_of row.now) }
{
    let mut count = 0;
    for target in row {
        if let Target::OfCell(_) = target {
            count += 1;
        }
    }
    count
}

/// How many cells each module instantiates.
pub(crate) fn own_cells(alloc: Global, rows: &[Items<Target>]) -> Result<Vec<u64>, NoMemory>
    ensures { IfOk result (λ own. own.items ≡ map (λ row. length (cells_of row)) rows.now) }
{
    let mut own = Vec::new(alloc);
    for row in rows {
        own.push(cell_count(row.as_slice()))?;
    }
    Ok(own)
}

/// Each module is one instance of itself.
pub(crate) fn own_instances(alloc: Global, count: usize) -> Result<Vec<u64>, NoMemory>
    ensures { IfOk result (λ own. own.items ≡ replicate count 1) }
{
    let own = vec![in alloc; 1; count]?;
    Ok(own)
}
