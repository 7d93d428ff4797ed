ghost use Rattle.std.specs.Prelude.{◌≡◌, ◌++◌, OnOk};
ghost use Rattle.lp_model.specs.NetlistView.{port_view, net_view, connection_view, connections_view, instance_view, assign_view};
ghost use Rattle.lp_vwrite.specs.Layout.{more_listed, listed, range_text, port_line, net_line, value_text, connection_text, connections_text, instance_line, assign_line, range_in};
ghost use Rattle.lp_vwrite.specs.Views.{named_view, ordered_view};

use crate::bits::put_value;
use crate::name::put_name;
use crate::vectors::Vectors;
use lp_model::{
    Assign, BitRange, Bits, Connection, Connections, Direction, Instance, NetDecl, Port,
};
use lp_text::{Names, NoMemory};

/// Writes the range of a vector, and a blank.
fn put_range(out: &mut Vec<u8>, range: Option<BitRange>) -> Result<(), NoMemory>
    ensures { OnOk result (out.new.items ≡ out.old.items ++ range_text range) }
{
    if let Some(range) = range {
        let left = range.left.to_string(*out.allocator())?;
        let right = range.right.to_string(*out.allocator())?;
        out.extend_from_slice(b"[")?;
        out.extend_from_slice(left.as_bytes())?;
        out.extend_from_slice(b":")?;
        out.extend_from_slice(right.as_bytes())?;
        out.extend_from_slice(b"] ")?;
    }
    Ok(())
}

/// Writes the declaration of a port.
pub(crate) fn put_port(out: &mut Vec<u8>, names: &Names, port: &Port) -> Result<(), NoMemory>
    ensures { OnOk result (out.new.items ≡ out.old.items ++ port_line (port_view names.now port.now)) }
{
    match port.direction {
        Direction::Input => out.extend_from_slice(b"  input ")?,
        Direction::Output => out.extend_from_slice(b"  output ")?,
    }
    put_range(out, port.range)?;
    put_name(out, names, port.name)?;
    out.extend_from_slice(b";\n")?;
    Ok(())
}

/// Writes the declaration of a wire.
pub(crate) fn put_net(out: &mut Vec<u8>, names: &Names, net: &NetDecl) -> Result<(), NoMemory>
    ensures { OnOk result (out.new.items ≡ out.old.items ++ net_line (net_view names.now net.now)) }
{
    out.extend_from_slice(b"  wire ")?;
    put_range(out, net.range)?;
    put_name(out, names, net.name)?;
    out.extend_from_slice(b";\n")?;
    Ok(())
}

fn put_connection(
    out: &mut Vec<u8>,
    names: &Names,
    vectors: &Vectors,
    connection: &Connection,
) -> Result<(), NoMemory>
    ensures { OnOk result (out.new.items ≡ out.old.items ++ connection_text (range_in vectors.now) (connection_view names.now connection.now)) }
{
    out.extend_from_slice(b".")?;
    put_name(out, names, connection.port)?;
    out.extend_from_slice(b"(")?;
    put_value(out, names, vectors, &connection.bits)?;
    out.extend_from_slice(b")")?;
    Ok(())
}

fn put_more_connections(
    out: &mut Vec<u8>,
    names: &Names,
    vectors: &Vectors,
    connections: &[Connection],
) -> Result<(), NoMemory>
    ensures { OnOk result (out.new.items ≡ out.old.items ++ more_listed (connection_text (range_in vectors.now)) (named_view names.now connections.now)) }
{
    for connection in connections {
        out.extend_from_slice(b", ")?;
        put_connection(out, names, vectors, connection)?;
    }
    Ok(())
}

/// Writes connections by name.
fn put_named(
    out: &mut Vec<u8>,
    names: &Names,
    vectors: &Vectors,
    connections: &[Connection],
) -> Result<(), NoMemory>
    ensures { OnOk result (out.new.items ≡ out.old.items ++ listed (connection_text (range_in vectors.now)) (named_view names.now connections.now)) }
{
    match connections {
        [] => Ok(()),
        [first, others @ ..] => {
            put_connection(out, names, vectors, first)?;
            put_more_connections(out, names, vectors, others)?;
            Ok(())
        }
    }
}

fn put_more_values(
    out: &mut Vec<u8>,
    names: &Names,
    vectors: &Vectors,
    values: &[Bits],
) -> Result<(), NoMemory>
    ensures { OnOk result (out.new.items ≡ out.old.items ++ more_listed (value_text (range_in vectors.now)) (ordered_view names.now values.now)) }
{
    for value in values {
        out.extend_from_slice(b", ")?;
        put_value(out, names, vectors, value)?;
    }
    Ok(())
}

/// Writes connections by position.
fn put_ordered(
    out: &mut Vec<u8>,
    names: &Names,
    vectors: &Vectors,
    values: &[Bits],
) -> Result<(), NoMemory>
    ensures { OnOk result (out.new.items ≡ out.old.items ++ listed (value_text (range_in vectors.now)) (ordered_view names.now values.now)) }
{
    match values {
        [] => Ok(()),
        [first, others @ ..] => {
            put_value(out, names, vectors, first)?;
            put_more_values(out, names, vectors, others)?;
            Ok(())
        }
    }
}

fn put_connections(
    out: &mut Vec<u8>,
    names: &Names,
    vectors: &Vectors,
    connections: &Connections,
) -> Result<(), NoMemory>
    ensures { OnOk result (out.new.items ≡ out.old.items ++ connections_text (range_in vectors.now) (connections_view names.now connections.now)) }
{
    match connections {
        Connections::Named(named) => put_named(out, names, vectors, named.as_slice()),
        Connections::Ordered(values) => put_ordered(out, names, vectors, values.as_slice()),
    }
}

/// Writes an instance with its connections.
pub(crate) fn put_instance(
    out: &mut Vec<u8>,
    names: &Names,
    vectors: &Vectors,
    instance: &Instance,
) -> Result<(), NoMemory>
    ensures { OnOk result (out.new.items ≡ out.old.items ++ instance_line (range_in vectors.now) (instance_view names.now instance.now)) }
{
    out.extend_from_slice(b"  ")?;
    put_name(out, names, instance.target)?;
    out.extend_from_slice(b" ")?;
    put_name(out, names, instance.name)?;
    out.extend_from_slice(b" (")?;
    put_connections(out, names, vectors, &instance.connections)?;
    out.extend_from_slice(b");\n")?;
    Ok(())
}

/// Writes an assign.
pub(crate) fn put_assign(
    out: &mut Vec<u8>,
    names: &Names,
    vectors: &Vectors,
    assign: &Assign,
) -> Result<(), NoMemory>
    ensures { OnOk result (out.new.items ≡ out.old.items ++ assign_line (range_in vectors.now) (assign_view names.now assign.now)) }
{
    out.extend_from_slice(b"  assign ")?;
    put_value(out, names, vectors, &assign.left)?;
    out.extend_from_slice(b" = ")?;
    put_value(out, names, vectors, &assign.right)?;
    out.extend_from_slice(b";\n")?;
    Ok(())
}
