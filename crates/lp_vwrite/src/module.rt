ghost use Rattle.std.specs.Prelude.{◌≡◌, ◌++◌, ℕ, List, map, flat_map, OnOk, IfOk};
ghost use Rattle.lp_text.specs.Texts.{text_at};
ghost use Rattle.lp_model.specs.NetlistView.{port_view, net_view, instance_view, assign_view, module_view};
ghost use Rattle.lp_vwrite.specs.Layout.{more_listed, listed, name_text, header_line, port_line, net_line, instance_line, assign_line, vectors_among, port_nets, wire_nets, SameRanges, range_in, range_of, module_text};

use crate::items::{put_assign, put_instance, put_net, put_port};
use crate::name::{put_name, text_of};
use crate::vectors::Vectors;
use lp_model::{Assign, Instance, Module, NetDecl, Port};
use lp_text::{Names, NoMemory};
use std::alloc::Global;

fn put_more_port_names(out: &mut Vec<u8>, names: &Names, ports: &[Port]) -> Result<(), NoMemory>
    ensures { OnOk result (out.new.items ≡ out.old.items ++ more_listed (λ p. name_text p.name) (map (port_view names.now) ports.now)) }
{
    for port in ports {
        out.extend_from_slice(b", ")?;
        put_name(out, names, port.name)?;
    }
    Ok(())
}

/// Writes the names of the ports of a header.
fn put_port_names(out: &mut Vec<u8>, names: &Names, ports: &[Port]) -> Result<(), NoMemory>
    ensures { OnOk result (out.new.items ≡ out.old.items ++ listed (λ p. name_text p.name) (map (port_view names.now) ports.now)) }
{
    match ports {
        [] => Ok(()),
        [first, others @ ..] => {
            put_name(out, names, first.name)?;
            put_more_port_names(out, names, others)?;
            Ok(())
        }
    }
}

fn put_header(out: &mut Vec<u8>, names: &Names, source: &Module) -> Result<(), NoMemory>
    ensures { OnOk result (out.new.items ≡ out.old.items ++ header_line (module_view names.now source.now)) }
{
    out.extend_from_slice(b"module ")?;
    put_name(out, names, source.name)?;
    out.extend_from_slice(b" (")?;
    put_port_names(out, names, source.ports.as_slice())?;
    out.extend_from_slice(b");\n")?;
    Ok(())
}

fn put_ports(out: &mut Vec<u8>, names: &Names, ports: &[Port]) -> Result<(), NoMemory>
    ensures { OnOk result (out.new.items ≡ out.old.items ++ flat_map port_line (map (port_view names.now) ports.now)) }
{
    for port in ports {
        put_port(out, names, port)?;
    }
    Ok(())
}

fn put_nets(out: &mut Vec<u8>, names: &Names, nets: &[NetDecl]) -> Result<(), NoMemory>
    ensures { OnOk result (out.new.items ≡ out.old.items ++ flat_map net_line (map (net_view names.now) nets.now)) }
{
    for net in nets {
        put_net(out, names, net)?;
    }
    Ok(())
}

fn put_instances(
    out: &mut Vec<u8>,
    names: &Names,
    vectors: &Vectors,
    instances: &[Instance],
) -> Result<(), NoMemory>
    ensures { OnOk result (out.new.items ≡ out.old.items ++ flat_map (instance_line (range_in vectors.now)) (map (instance_view names.now) instances.now)) }
{
    for instance in instances {
        put_instance(out, names, vectors, instance)?;
    }
    Ok(())
}

fn put_assigns(
    out: &mut Vec<u8>,
    names: &Names,
    vectors: &Vectors,
    assigns: &[Assign],
) -> Result<(), NoMemory>
    ensures { OnOk result (out.new.items ≡ out.old.items ++ flat_map (assign_line (range_in vectors.now)) (map (assign_view names.now) assigns.now)) }
{
    for assign in assigns {
        put_assign(out, names, vectors, assign)?;
    }
    Ok(())
}

/// Adds the ports that are vectors.
fn add_ports(vectors: &mut Vectors, names: &Names, ports: &[Port]) -> Result<(), NoMemory>
    ensures { OnOk result (SameRanges vectors.new (vectors.old ++ vectors_among (port_nets (map (port_view names.now) ports.now)))) }
{
    for port in ports {
        if let Some(range) = port.range {
            vectors.add(text_of(names, port.name), range)?;
        }
    }
    Ok(())
}

/// Adds the wires that are vectors.
fn add_nets(vectors: &mut Vectors, names: &Names, nets: &[NetDecl]) -> Result<(), NoMemory>
    ensures { OnOk result (SameRanges vectors.new (vectors.old ++ vectors_among (wire_nets (map (net_view names.now) nets.now)))) }
{
    for net in nets {
        if let Some(range) = net.range {
            vectors.add(text_of(names, net.name), range)?;
        }
    }
    Ok(())
}

/// The ranges of the vectors of a module.
fn ranges_of(alloc: Global, names: &Names, source: &Module) -> Result<Vectors, NoMemory>
    ensures { IfOk result (λ vectors. range_in vectors ≡ range_of (module_view names.now source.now)) }
{
    let mut vectors = Vectors::new(alloc);
    add_ports(&mut vectors, names, source.ports.as_slice())?;
    add_nets(&mut vectors, names, source.nets.as_slice())?;
    Ok(vectors)
}

/// Writes a module.
pub(crate) fn put_module(
    alloc: Global,
    out: &mut Vec<u8>,
    names: &Names,
    source: &Module,
) -> Result<(), NoMemory>
    ensures { OnOk result (out.new.items ≡ out.old.items ++ module_text (module_view names.now source.now)) }
{
    let vectors = ranges_of(alloc, names, source)?;
    put_header(out, names, source)?;
    put_ports(out, names, source.ports.as_slice())?;
    put_nets(out, names, source.nets.as_slice())?;
    put_instances(out, names, &vectors, source.instances.as_slice())?;
    put_assigns(out, names, &vectors, source.assigns.as_slice())?;
    out.extend_from_slice(b"endmodule\n")?;
    Ok(())
}
