ghost use Rattle.std.specs.Prelude.{◌≡◌, is_none};
ghost use Rattle.std.specs.List.{list_all};
ghost use Rattle.lp_model.specs.NetlistView.{netlist_view};
ghost use Rattle.lp_spec_plain_netlist.specs.Single.{is_single};
ghost use Rattle.lp_plain_fits.specs.Scalars.{is_one_net, are_one_nets, is_free, has_no_assign, has_free_names, has_scalars, is_single_module};

use lp_attributes::text_of;
use lp_model::{
    Assign, Bit, Bits, Connection, Connections, Instance, Module, NetDecl, Netlist, Port,
};
use lp_text::{NameId, Names};

fn have_scalar_ports(ports: &[Port]) -> bool
    ensures { result ≡ list_all (λ p. is_none p.range) ports.now }
{
    ports.iter().all(|port| port.range.is_none())
}

fn have_scalar_nets(nets: &[NetDecl]) -> bool
    ensures { result ≡ list_all (λ n. is_none n.range) nets.now }
{
    nets.iter().all(|net| net.range.is_none())
}

fn is_one_net(bits: &Bits) -> bool
    ensures { result ≡ is_one_net bits.now }
{
    match bits.single() {
        Some(Bit::Net(_)) => true,
        _ => false,
    }
}

fn have_one_nets(connections: &[Connection]) -> bool
    ensures { result ≡ list_all (λ c. is_one_net c.bits) connections.now }
{
    connections
        .iter()
        .all(|connection| is_one_net(&connection.bits))
}

fn are_one_nets(connections: &Connections) -> bool
    ensures { result ≡ are_one_nets connections.now }
{
    match connections {
        Connections::Named(connections) => have_one_nets(connections.as_slice()),
        Connections::Ordered(_) => false,
    }
}

fn are_single(instances: &[Instance]) -> bool
    ensures { result ≡ list_all (λ x. are_one_nets x.connections) instances.now }
{
    instances
        .iter()
        .all(|instance| are_one_nets(&instance.connections))
}

/// Whether a name is not one of those that are kept for what is added.
fn is_free(names: &Names, name: NameId) -> bool
    ensures { result ≡ is_free names.now name.0 }
{
    !text_of(names, name).as_bytes().starts_with(b"lp_")
}

fn have_free_ports(names: &Names, ports: &[Port]) -> bool
    ensures { result ≡ list_all (λ p. is_free names.now p.name.0) ports.now }
{
    ports.iter().all(|port| is_free(names, port.name))
}

fn have_free_nets(names: &Names, nets: &[NetDecl]) -> bool
    ensures { result ≡ list_all (λ n. is_free names.now n.name.0) nets.now }
{
    nets.iter().all(|net| is_free(names, net.name))
}

fn have_free_instances(names: &Names, instances: &[Instance]) -> bool
    ensures { result ≡ list_all (λ x. is_free names.now x.name.0) instances.now }
{
    instances
        .iter()
        .all(|instance| is_free(names, instance.name))
}

fn has_free_names(names: &Names, source: &Module) -> bool
    ensures { result ≡ has_free_names names.now source.now }
{
    is_free(names, source.name)
        && have_free_ports(names, source.ports.as_slice())
        && have_free_nets(names, source.nets.as_slice())
        && have_free_instances(names, source.instances.as_slice())
}

fn has_no_assign(assigns: &[Assign]) -> bool
    ensures { result ≡ has_no_assign assigns.now }
{
    match assigns {
        [] => true,
        _ => false,
    }
}

/// Whether a module has scalars alone, connections by name and no assign.
fn has_scalars(source: &Module) -> bool
    ensures { result ≡ has_scalars source.now }
{
    have_scalar_ports(source.ports.as_slice())
        && have_scalar_nets(source.nets.as_slice())
        && are_single(source.instances.as_slice())
        && has_no_assign(source.assigns.as_slice())
}

/// Whether a module has scalars alone and no name that is kept.
fn is_single_module(names: &Names, source: &Module) -> bool
    ensures { result ≡ is_single_module names.now source.now }
{
    has_scalars(source) && has_free_names(names, source)
}

/// Whether a netlist is one module of scalars that can be taken. Takes time in proportion to the netlist.
pub fn is_single(names: &Names, netlist: &Netlist) -> bool
    ensures { result ≡ is_single (netlist_view names.now netlist.now) }
{
    match netlist.modules.as_slice() {
        [source] => is_single_module(names, source),
        _ => false,
    }
}
