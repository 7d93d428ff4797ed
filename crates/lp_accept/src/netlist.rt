ghost use Rattle.std.specs.Prelude.{◌≡◌, ◌≤◌, ◌+◌, length, IfOk, ◌*◌};
ghost use Rattle.lp_text.specs.declared.shelf.TheConstants.{LIMIT};
ghost use Rattle.lp_text.specs.Texts.{Grown};
ghost use Rattle.lp_spec_insertion.specs.Faults.{IsRefused};
ghost use Rattle.lp_accept.specs.Stages.{OrStop};
ghost use Rattle.lp_accept.specs.Read.{IsModules};

use crate::stop::{Stop, stop_at};
use lp_model::{Netlist, Refusal};
use lp_text::Names;
use lp_verilog::{numbers_stand, parts_are_few, read_netlist};
use lp_vwrite::read_is_sound;
use std::alloc::Global;

/// The modules of a netlist text.
pub(crate) fn read_modules(alloc: Global, names: &mut Names, bytes: &[u8]) -> Result<Netlist, Stop>
    requires { length names.old ≤ 16 * LIMIT + 1 }
    ensures gives { OrStop (IsModules names.new bytes.now) (IsRefused bytes.now) result }
    ensures short { IfOk result (λ n. length names.new ≤ 17 * LIMIT + 1) }
    ensures grown { Grown names.old names.new }
{
    numbers_stand();
    parts_are_few();
    read_is_sound();
    match read_netlist(alloc, names, bytes) {
        Ok(netlist) => {
            let _ = names.count();
            Ok(netlist)
        }
        Err(Refusal::Fault(fault)) => {
            let _ = names.count();
            Err(stop_at(alloc, names, &fault))
        }
        Err(Refusal::NoMemory) => Err(Stop::NoMemory),
    }
}
