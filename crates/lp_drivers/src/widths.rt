ghost use Rattle.std.specs.Prelude.{◌≡◌, ◌+◌, min, sum_by};
ghost use Rattle.lp_spec_faults.specs.Modules.{bit_count};
ghost use Rattle.lp_targets.specs.Sizes.{module_bits};
ghost use Rattle.lp_drivers.specs.Table.{most_bits};

use lp_model::{BitRange, Module, NetDecl, Port};

/// The bits of a port or net.
pub(crate) fn bit_count(range: Option<BitRange>) -> usize
    ensures { result ≡ bit_count range }
{
    match range {
        None => 1,
        Some(range) => {
            let left = range.left as usize;
            let right = range.right as usize;
            if left <= right {
                right + 1 - left
            } else {
                left + 1 - right
            }
        }
    }
}

fn port_bits(ports: &[Port]) -> usize
    ensures { result ≡ min most_bits (sum_by (λ p. bit_count p.range) ports.now) }
{
    let mut total: usize = 0;
    for port in ports {
        total = total.saturating_add(bit_count(port.range));
    }
    total
}

fn net_bits(nets: &[NetDecl]) -> usize
    ensures { result ≡ min most_bits (sum_by (λ n. bit_count n.range) nets.now) }
{
    let mut total: usize = 0;
    for net in nets {
        total = total.saturating_add(bit_count(net.range));
    }
    total
}

/// The net bits that a module declares, up to the largest number.
pub(crate) fn module_bits(source: &Module) -> usize
    ensures { result ≡ min most_bits (module_bits source.now) }
{
    let ports = port_bits(source.ports.as_slice());
    let nets = net_bits(source.nets.as_slice());
    ports.saturating_add(nets)
}
