ghost use Rattle.std.specs.Prelude.{◌≡◌, ◌≤◌, ◌++◌, OnOk, length, nat_le, slice_get};
ghost use Rattle.std.specs.List.{position};
ghost use Rattle.std.specs.Option.{option_copied, option_map};
ghost use Rattle.lp_fault_text.specs.Supplies as supplies;

use crate::known::{IntentTables, Known};
use crate::path::{put_name, put_path};
use lp_model::{OriginId, PowerSwitch, ScopedName, SetId, SetName, StrategyId};
use lp_text::NoMemory;

/// Appends a name that was made in a scope.
pub(crate) fn put_scoped(out: &mut Vec<u8>, known: &Known, made: ScopedName) -> Result<(), NoMemory>
    ensures { OnOk result (out.new.items ≡ out.old.items ++ supplies.scoped_text known.now made) }
{
    put_path(out, known.names, known.graph.instances, made.scope)?;
    put_name(out, known.names, made.name)
}

/// Appends a domain.
pub(crate) fn put_domain(out: &mut Vec<u8>, known: &Known, number: u32) -> Result<(), NoMemory>
    ensures { OnOk result (out.new.items ≡ out.old.items ++ supplies.domain_text known.now number) }
{
    if let Some(domain) = known.intent.domains.get(number as usize) {
        put_scoped(out, known, domain.name)?;
    }
    Ok(())
}

/// Appends the name of a supply set.
fn put_set_name(out: &mut Vec<u8>, known: &Known, name: SetName) -> Result<(), NoMemory>
    ensures { OnOk result (out.new.items ≡ out.old.items ++ supplies.set_name_text known.now name) }
{
    match name {
        SetName::Made(made) => put_scoped(out, known, made)?,
        SetName::Primary(domain) => {
            put_domain(out, known, domain)?;
            out.extend_from_slice(b".primary")?;
        }
    }
    Ok(())
}

/// Appends a supply set.
pub(crate) fn put_set(out: &mut Vec<u8>, known: &Known, set: SetId) -> Result<(), NoMemory>
    ensures { OnOk result (out.new.items ≡ out.old.items ++ supplies.set_text known.now set) }
{
    if let Some(it) = known.intent.sets.get(set.0 as usize) {
        put_set_name(out, known, it.name)?;
    }
    Ok(())
}

/// Appends a switch.
pub(crate) fn put_switch(out: &mut Vec<u8>, known: &Known, number: u32) -> Result<(), NoMemory>
    ensures { OnOk result (out.new.items ≡ out.old.items ++ supplies.switch_text known.now number) }
{
    if let Some(switch) = known.intent.switches.get(number as usize) {
        put_scoped(out, known, switch.name)?;
    }
    Ok(())
}

/// Appends a strategy behind its domain.
pub(crate) fn put_strategy(
    out: &mut Vec<u8>,
    known: &Known,
    strategy: StrategyId,
) -> Result<(), NoMemory>
    ensures { OnOk result (out.new.items ≡ out.old.items ++ supplies.strategy_text known.now strategy) }
{
    if let Some(it) = known.intent.strategies.get(strategy.0 as usize) {
        put_domain(out, known, it.domain)?;
        out.extend_from_slice(b".")?;
        put_name(out, known.names, it.name)?;
    }
    Ok(())
}

/// The first switch that was not made before a command.
fn first_since(command: u32, switches: &[PowerSwitch]) -> Option<usize>
    ensures { result ≡ position (λ s. nat_le command s.command) switches.now }
{
    switches.iter().position(|switch| command <= switch.command)
}

/// How many of the switches were made before a command.
fn made_before(command: u32, switches: &[PowerSwitch]) -> usize
    ensures count { result ≡ supplies.made_before command switches.now }
    ensures within { result ≤ length switches.now }
{
    match first_since(command, switches) {
        Some(place) => place,
        None => switches.len(),
    }
}

/// The name of a switch.
fn switch_name(switches: &[PowerSwitch], number: usize) -> Option<ScopedName>
    ensures { result ≡ option_map (λ s. s.name) (slice_get switches.now number) }
{
    let switch = switches.get(number)?;
    Some(switch.name)
}

/// The name of an origin.
fn origin_name(intent: &IntentTables, number: usize) -> Option<ScopedName>
    ensures { result ≡ slice_get (supplies.origins intent.now) number }
{
    let mut rest = intent.switches;
    let mut left = number;
    for port in intent.ports {
        if port.is_source {
            let before = made_before(port.command, rest);
            if left < before {
                return switch_name(rest, left);
            }
            if left == before {
                return Some(port.name);
            }
            left -= before + 1;
            rest = rest.split_at(before).1;
        }
    }
    switch_name(rest, left)
}

/// Appends an origin by its port or switch.
pub(crate) fn put_origin(out: &mut Vec<u8>, known: &Known, origin: OriginId) -> Result<(), NoMemory>
    ensures { OnOk result (out.new.items ≡ out.old.items ++ supplies.origin_text known.now origin) }
{
    if let Some(name) = origin_name(&known.intent, origin.0 as usize) {
        put_scoped(out, known, name)?;
    }
    Ok(())
}
