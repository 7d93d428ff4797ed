ghost use Rattle.std.specs.Prelude.{◌≡◌, map};
ghost use Rattle.lp_text.specs.Texts.{text_at};
ghost use Rattle.lp_spec_design.specs.Netlists.{first};
ghost use Rattle.lp_spec_faults.specs.Modules.{is_own};
ghost use Rattle.lp_targets.specs.Numbered.{is_own_name, part_names, is_reserved_module, reserved_in, first_reserved};

use crate::index::Index;
use lp_attributes::text_of;
use lp_model::{Instance, Module, NetDecl, Port};
use lp_text::{NameId, Names};

/// Whether a name is one of those that are kept for what is added.
fn is_own(names: &Names, name: NameId) -> bool
    ensures { result ≡ is_own_name names.now name }
{
    text_of(names, name).as_bytes().starts_with(b"lp_")
}

fn own_port(names: &Names, ports: &[Port]) -> Option<NameId>
    ensures { result ≡ first (is_own_name names.now) (map (λ p. p.name) ports.now) }
{
    for port in ports {
        if is_own(names, port.name) {
            return Some(port.name);
        }
    }
    None
}

fn own_net(names: &Names, nets: &[NetDecl]) -> Option<NameId>
    ensures { result ≡ first (is_own_name names.now) (map (λ n. n.name) nets.now) }
{
    for net in nets {
        if is_own(names, net.name) {
            return Some(net.name);
        }
    }
    None
}

fn own_instance(names: &Names, instances: &[Instance]) -> Option<NameId>
    ensures { result ≡ first (is_own_name names.now) (map (λ i. i.name) instances.now) }
{
    for instance in instances {
        if is_own(names, instance.name) {
            return Some(instance.name);
        }
    }
    None
}

/// The first port, net or instance of a module whose name is kept.
fn own_part(names: &Names, source: &Module) -> Option<NameId>
    ensures { result ≡ first (is_own_name names.now) (part_names source.now) }
{
    let port = own_port(names, source.ports.as_slice());
    if port.is_some() {
        return port;
    }
    let net = own_net(names, source.nets.as_slice());
    if net.is_some() {
        return net;
    }
    own_instance(names, source.instances.as_slice())
}

/// Whether the name of a module is kept or a cell's.
fn is_reserved_module(index: &Index, names: &Names, name: NameId) -> bool
    ensures { result ≡ is_reserved_module names.now index.now.cells name }
{
    is_own(names, name) || index.has_cell(name)
}

/// The first reserved name that a module declares.
fn reserved_in(index: &Index, names: &Names, source: &Module) -> Option<NameId>
    ensures { result ≡ reserved_in names.now index.now.cells source.now }
{
    if is_reserved_module(index, names, source.name) {
        return Some(source.name);
    }
    own_part(names, source)
}

/// The first reserved name of a netlist.
pub(crate) fn first_reserved(index: &Index, names: &Names, modules: &[Module]) -> Option<NameId>
    ensures { result ≡ first_reserved names.now index.now.cells modules.now }
{
    for module in modules {
        let name = reserved_in(index, names, module);
        if name.is_some() {
            return name;
        }
    }
    None
}
