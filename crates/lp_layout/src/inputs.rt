ghost use Rattle.std.specs.Prelude.{◌≡◌, ◌++◌, [], length, IfOk, OnOk};
ghost use Rattle.std.specs.Option.{option_copied};
ghost use Rattle.lp_spec_design.specs.Netlists.{indices};
ghost use Rattle.lp_layout.specs.Inputs.{is_input, times, port_inputs, top_inputs};

use lp_model::{BitRange, Direction, Module, Port};
use lp_text::NoMemory;
use std::alloc::Global;

/// How many bits a port has.
fn bit_count(range: Option<BitRange>) -> u64
    ensures { result ≡ length (indices range) }
{
    match range {
        Some(range) => {
            if range.left <= range.right {
                range.right as u64 + 1 - range.left as u64
            } else {
                range.left as u64 + 1 - range.right as u64
            }
        }
        None => 1,
    }
}

fn is_input(direction: Direction) -> bool
    ensures { result ≡ is_input direction }
{
    match direction {
        Direction::Input => true,
        Direction::Output => false,
    }
}

/// Puts one answer for each of some bits behind the others.
fn push_times(inputs: &mut Vec<bool>, is_input: bool, count: u64) -> Result<(), NoMemory>
    ensures { OnOk result (inputs.new.items ≡ inputs.old.items ++ times is_input count) }
{
    for k in 0..count {
        inputs.push(is_input)?;
    }
    Ok(())
}

/// Which bits of ports are inputs.
fn port_inputs(alloc: Global, ports: &[Port]) -> Result<Vec<bool>, NoMemory>
    ensures { IfOk result (λ v. v.items ≡ port_inputs ports.now) }
{
    let mut inputs = Vec::new(alloc);
    for port in ports {
        push_times(&mut inputs, is_input(port.direction), bit_count(port.range))?;
    }
    Ok(inputs)
}

/// Which bits of the ports of a module are inputs; of none no bit.
pub(crate) fn top_inputs(alloc: Global, top: Option<&Module>) -> Result<Vec<bool>, NoMemory>
    ensures { IfOk result (λ v. v.items ≡ top_inputs (option_copied top.entry)) }
{
    match top {
        Some(top) => port_inputs(alloc, top.ports.as_slice()),
        None => Ok(Vec::new(alloc)),
    }
}
