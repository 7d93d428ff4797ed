ghost use Rattle.std.specs.Prelude.{◌≡◌, ◌++◌, codes, decimal, IfOk, OnOk, IsTrue};
ghost use Rattle.lp_text.specs.Texts.{text_at};
ghost use Rattle.lp_model.specs.FaultLines.{field, fields_text, place_text, pin_text, join_fields, library_fields, netlist_fields, intent_fields, event_fields, design_fields, fault_fields, fault_lead, fault_word, fault_line, line_text, is_plain};

use crate::fault::intent::IntentFault;
use crate::fault::library::LibraryFault;
use crate::fault::netlist::{InstanceRef, JoinRef, NetlistFault, PinRef};
use crate::fault::refusal::{DesignFault, Fault};
use crate::fault::run::{EventFault, GeneratorFault};
use crate::fault::supply::SupplyFault;
use lp_text::{Bytes, NameId, Names, NoMemory, Place};
use std::alloc::Global;

/// The line of a fault that names and places alone give, without a line feed. A number that the table lacks gives an
/// empty name.
///
/// # Errors
///
/// Only where memory is refused.
pub fn write_line(alloc: Global, names: &Names, fault: &Fault) -> Result<Bytes, NoMemory>
    requires { IsTrue (is_plain fault.now) }
    ensures { IfOk result (λ line. line ≡ fault_line names.now fault.now) }
{
    let mut out = Vec::from_slice(alloc, b"lpinsert: ")?;
    put_lead(&mut out, fault)?;
    out.extend_from_slice(fault.word().as_bytes())?;
    put_fields(&mut out, names, fault)?;
    Ok(Bytes::new(out))
}

/// The line of a fault with these fields, without a line feed: for the stages that know what its fields stand for.
///
/// # Errors
///
/// Only where memory is refused.
pub fn write_line_with(alloc: Global, fault: &Fault, fields: &[Bytes]) -> Result<Bytes, NoMemory>
    ensures { IfOk result (λ line. line ≡ line_text (fault_lead fault.now ++ fault_word fault.now) fields.now) }
{
    let mut out = Vec::from_slice(alloc, b"lpinsert: ")?;
    put_lead(&mut out, fault)?;
    out.extend_from_slice(fault.word().as_bytes())?;
    put_texts(&mut out, fields)?;
    Ok(Bytes::new(out))
}

/// Appends fields.
fn put_texts(out: &mut Vec<u8>, fields: &[Bytes]) -> Result<(), NoMemory>
    ensures { OnOk result (out.new.items ≡ out.old.items ++ fields_text fields.now) }
{
    for text in fields {
        out.extend_from_slice(b" ")?;
        out.extend_from_slice(text.all())?;
    }
    Ok(())
}

/// Appends what stands before the word.
fn put_lead(out: &mut Vec<u8>, fault: &Fault) -> Result<(), NoMemory>
    ensures { OnOk result (out.new.items ≡ out.old.items ++ fault_lead fault.now) }
{
    match fault {
        Fault::Powered(_) => out.extend_from_slice(b"powered ")?,
        Fault::Loaded(load, _) => put_load(out, *load)?,
        _ => {}
    }
    Ok(())
}

fn put_load(out: &mut Vec<u8>, load: u32) -> Result<(), NoMemory>
    ensures { OnOk result (out.new.items ≡ out.old.items ++ (codes "loaded " ++ (decimal load ++ codes " "))) }
{
    let number = load.to_string(*out.allocator())?;
    out.extend_from_slice(b"loaded ")?;
    out.extend_from_slice(number.as_bytes())?;
    out.extend_from_slice(b" ")?;
    Ok(())
}

/// Appends a field that is a word.
fn put_word(out: &mut Vec<u8>, word: &str) -> Result<(), NoMemory>
    ensures { OnOk result (out.new.items ≡ out.old.items ++ field word.now) }
{
    out.extend_from_slice(b" ")?;
    out.extend_from_slice(word.as_bytes())?;
    Ok(())
}

/// Appends a field that is a number.
fn put_number(out: &mut Vec<u8>, number: u32) -> Result<(), NoMemory>
    ensures { OnOk result (out.new.items ≡ out.old.items ++ field (decimal number)) }
{
    let text = number.to_string(*out.allocator())?;
    put_word(out, text.as_str())
}

/// Appends a field that is a name.
fn put_name(out: &mut Vec<u8>, names: &Names, name: NameId) -> Result<(), NoMemory>
    ensures { OnOk result (out.new.items ≡ out.old.items ++ field (text_at names.now name.0)) }
{
    if name.0 < names.count() {
        put_word(out, names.text(name))
    } else {
        put_word(out, "")
    }
}

/// Appends two fields that are names.
fn put_names(
    out: &mut Vec<u8>,
    names: &Names,
    first: NameId,
    second: NameId,
) -> Result<(), NoMemory>
    ensures { OnOk result (out.new.items ≡ out.old.items ++ (field (text_at names.now first.0) ++ field (text_at names.now second.0))) }
{
    put_name(out, names, first)?;
    put_name(out, names, second)?;
    Ok(())
}

/// Appends a field that is a place.
fn put_place(out: &mut Vec<u8>, place: Place) -> Result<(), NoMemory>
    ensures { OnOk result (out.new.items ≡ out.old.items ++ field (place_text place)) }
{
    let column = place.column.to_string(*out.allocator())?;
    put_number(out, place.line)?;
    out.extend_from_slice(b":")?;
    out.extend_from_slice(column.as_bytes())?;
    Ok(())
}

/// Appends a place and a name.
fn put_named_place(
    out: &mut Vec<u8>,
    names: &Names,
    place: Place,
    name: NameId,
) -> Result<(), NoMemory>
    ensures { OnOk result (out.new.items ≡ out.old.items ++ (field (place_text place) ++ field (text_at names.now name.0))) }
{
    put_place(out, place)?;
    put_name(out, names, name)?;
    Ok(())
}

/// Appends a number and a place.
fn put_file_place(out: &mut Vec<u8>, file: u32, place: Place) -> Result<(), NoMemory>
    ensures { OnOk result (out.new.items ≡ out.old.items ++ (field (decimal file) ++ field (place_text place))) }
{
    put_number(out, file)?;
    put_place(out, place)?;
    Ok(())
}

fn put_library(out: &mut Vec<u8>, names: &Names, fault: &LibraryFault) -> Result<(), NoMemory>
    ensures { OnOk result (out.new.items ≡ out.old.items ++ fields_text (library_fields names.now fault.now)) }
{
    match fault {
        LibraryFault::Syntax { file, place } | LibraryFault::Limit { file, place } => {
            put_file_place(out, *file, *place)
        }
        LibraryFault::DuplicateCell { cell } => put_name(out, names, *cell),
    }
}

fn put_instance(out: &mut Vec<u8>, names: &Names, at: InstanceRef) -> Result<(), NoMemory>
    ensures { OnOk result (out.new.items ≡ out.old.items ++ (field (text_at names.now at.parent.0) ++ field (text_at names.now at.instance.0))) }
{
    put_names(out, names, at.parent, at.instance)
}

fn put_pin(out: &mut Vec<u8>, names: &Names, pin: PinRef) -> Result<(), NoMemory>
    ensures { OnOk result (out.new.items ≡ out.old.items ++ field (pin_text names.now pin)) }
{
    match pin {
        PinRef::Named(name) => put_name(out, names, name),
        PinRef::Ordered(position) => put_number(out, position),
    }
}

fn put_join(out: &mut Vec<u8>, names: &Names, join: JoinRef) -> Result<(), NoMemory>
    ensures { OnOk result (out.new.items ≡ out.old.items ++ fields_text (join_fields names.now join)) }
{
    match join {
        JoinRef::Connection(instance, port) => put_names(out, names, instance, port),
        JoinRef::Assign(number) => {
            put_word(out, "assign")?;
            put_number(out, number)
        }
    }
}

fn put_netlist(out: &mut Vec<u8>, names: &Names, fault: &NetlistFault) -> Result<(), NoMemory>
    ensures { OnOk result (out.new.items ≡ out.old.items ++ fields_text (netlist_fields names.now fault.now)) }
{
    match fault {
        NetlistFault::Syntax { place } => put_place(out, *place),
        NetlistFault::Unsupported { place, word: name }
        | NetlistFault::DuplicateName { place, name } => {
            put_named_place(out, names, *place, *name)
        }
        NetlistFault::UnknownModule { at } => put_instance(out, names, *at),
        NetlistFault::UnknownPin { at, pin } => {
            put_instance(out, names, *at)?;
            put_pin(out, names, *pin)
        }
        NetlistFault::Width { parent, join } => {
            put_name(out, names, *parent)?;
            put_join(out, names, *join)
        }
        NetlistFault::Recursive { target: name } | NetlistFault::ReservedName { name } => {
            put_name(out, names, *name)
        }
        NetlistFault::Top { count } => put_number(out, *count),
        NetlistFault::AlreadyPowered { at, pin } => {
            put_instance(out, names, *at)?;
            put_name(out, names, *pin)
        }
        NetlistFault::Limit { limit } => put_number(out, limit.number()),
        NetlistFault::UnfitCell { at, reason } => {
            put_instance(out, names, *at)?;
            put_word(out, reason.word())
        }
        NetlistFault::TwoDrivers { .. } | NetlistFault::WireLoop { .. } => Ok(()),
    }
}

fn put_intent(out: &mut Vec<u8>, names: &Names, fault: &IntentFault) -> Result<(), NoMemory>
    ensures { OnOk result (out.new.items ≡ out.old.items ++ fields_text (intent_fields names.now fault.now)) }
{
    match fault {
        IntentFault::Syntax { place } | IntentFault::ClampRefused { place } => {
            put_place(out, *place)
        }
        IntentFault::Unsupported { place, word: name }
        | IntentFault::UnknownName { place, name }
        | IntentFault::Duplicate { place, name } => put_named_place(out, names, *place, *name),
        IntentFault::Limit { limit } => put_number(out, limit.number()),
        IntentFault::LoadCycle { file } => put_name(out, names, *file),
        IntentFault::LoadLimit { limit } => put_number(out, limit.number()),
    }
}

fn put_design(out: &mut Vec<u8>, names: &Names, fault: &DesignFault) -> Result<(), NoMemory>
    ensures { OnOk result (out.new.items ≡ out.old.items ++ fields_text (design_fields names.now fault.now)) }
{
    match fault {
        DesignFault::Library(fault) => put_library(out, names, fault),
        DesignFault::Netlist(fault) => put_netlist(out, names, fault),
        DesignFault::Intent(fault) => put_intent(out, names, fault),
        DesignFault::Supply(SupplyFault::NoDomain { top }) => put_name(out, names, *top),
        DesignFault::Supply(_) | DesignFault::Strategy(_) => Ok(()),
    }
}

fn put_event(out: &mut Vec<u8>, names: &Names, fault: &EventFault) -> Result<(), NoMemory>
    ensures { OnOk result (out.new.items ≡ out.old.items ++ fields_text (event_fields names.now fault.now)) }
{
    match fault {
        EventFault::Syntax { line: number }
        | EventFault::Limit { line: number }
        | EventFault::NotInRows { event: number }
        | EventFault::VcdSyntax { line: number }
        | EventFault::VcdSupply { line: number } => put_number(out, *number),
        EventFault::UnknownName { line, name } => {
            put_number(out, *line)?;
            put_name(out, names, *name)
        }
        EventFault::VcdWidth { name } | EventFault::VcdName { name } => {
            put_name(out, names, *name)
        }
    }
}

/// Appends the fields.
fn put_fields(out: &mut Vec<u8>, names: &Names, fault: &Fault) -> Result<(), NoMemory>
    ensures { OnOk result (out.new.items ≡ out.old.items ++ fields_text (fault_fields names.now fault.now)) }
{
    match fault {
        Fault::Design(fault) => put_design(out, names, fault),
        Fault::Event(fault) => put_event(out, names, fault),
        Fault::Generator(GeneratorFault::OutOfRange { number }) | Fault::NotYet(number) => {
            put_number(out, *number)
        }
        Fault::Powered(fault) => put_netlist(out, names, fault),
        Fault::Loaded(_, fault) => put_intent(out, names, fault),
        Fault::Pins(_) | Fault::Check(_) => Ok(()),
    }
}
