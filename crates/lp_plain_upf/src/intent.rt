ghost use Rattle.std.specs.Prelude.{◌≡◌, IfOk, IfSome, Some, List, ℕ};
ghost use Rattle.std.specs.Option.{option_map};
ghost use Rattle.lp_plain_upf.specs.declared.plain.Intent.{Intent};
ghost use Rattle.lp_plain_upf.specs.Upf.{IsIntent};
ghost use Rattle.lp_plain_upf.specs.Reading.{named_at, power_pieces, gnd_pieces, set_pieces, domain_pieces, state_pieces, voltage_at, spelled_at, intent_at};
ghost use Rattle.lp_plain_upf.specs.Spelled.{denoted};

use crate::pieces::{before, expect, name_behind};
use crate::plain::Intent;
use crate::spelled::Spelled;
use lp_text::{LIMIT, NoMemory, micros_bytes};
use std::alloc::Global;

// The power port, at the front of the text.
#[tactic(auto, unfolding(crate::specs::Reading::power_pieces))]
fn power(bytes: &[u8]) -> Option<(&[u8], &[u8])>
    ensures { option_map (λ x. (x.0.now, x.1.now)) result ≡ named_at power_pieces bytes.now }
{
    name_behind(bytes, &[b"create_supply_port "])
}

// The ground port, behind the power port.
#[tactic(auto, unfolding(crate::specs::Reading::gnd_pieces))]
fn gnd(bytes: &[u8]) -> Option<(&[u8], &[u8])>
    ensures { option_map (λ x. (x.0.now, x.1.now)) result ≡ named_at gnd_pieces bytes.now }
{
    name_behind(bytes, &[b"\ncreate_supply_port "])
}

// The supply set, behind the nets and their connections.
#[tactic(auto, unfolding(crate::specs::Reading::set_pieces))]
fn set<'a>(bytes: &'a [u8], power: &[u8], gnd: &[u8]) -> Option<(&'a [u8], &'a [u8])>
    ensures { option_map (λ x. (x.0.now, x.1.now)) result ≡ named_at (set_pieces power.now gnd.now) bytes.now }
{
    name_behind(
        bytes,
        &[
            b"\ncreate_supply_net ",
            power,
            b"\ncreate_supply_net ",
            gnd,
            b"\nconnect_supply_net ",
            power,
            b" -ports {",
            power,
            b"}\nconnect_supply_net ",
            gnd,
            b" -ports {",
            gnd,
            b"}\ncreate_supply_set ",
        ],
    )
}

// The power domain, behind the functions of the supply set.
#[tactic(auto, unfolding(crate::specs::Reading::domain_pieces))]
fn domain<'a>(bytes: &'a [u8], power: &[u8], gnd: &[u8]) -> Option<(&'a [u8], &'a [u8])>
    ensures { option_map (λ x. (x.0.now, x.1.now)) result ≡ named_at (domain_pieces power.now gnd.now) bytes.now }
{
    name_behind(
        bytes,
        &[
            b" -function {power ",
            power,
            b"} -function {ground ",
            gnd,
            b"}\ncreate_power_domain ",
        ],
    )
}

// The state of the power port, behind the domain's primary supply.
#[tactic(auto, unfolding(crate::specs::Reading::state_pieces))]
fn state<'a>(bytes: &'a [u8], power: &[u8], set: &[u8]) -> Option<(&'a [u8], &'a [u8])>
    ensures { option_map (λ x. (x.0.now, x.1.now)) result ≡ named_at (state_pieces power.now set.now) bytes.now }
{
    name_behind(
        bytes,
        &[
            b" -elements {.} -supply {primary ",
            set,
            b"}\nadd_port_state ",
            power,
            b" -state {",
        ],
    )
}

// The voltage of that state in microvolts, which ends the text.
#[tactic(auto, unfolding(crate::specs::Reading::voltage_at))]
fn voltage(bytes: &[u8]) -> Option<u64>
    ensures { result ≡ voltage_at bytes.now }
{
    let rest = expect(bytes, b" ")?;
    let volts = before(rest, b"}\n")?;
    micros_bytes(volts)
}

#[tactic(auto, unfolding(crate::specs::Reading::spelled_at))]
fn spelled(bytes: &[u8]) -> Option<Spelled<'_>>
    ensures { option_map denoted result ≡ spelled_at bytes.now }
{
    let (power, rest) = power(bytes)?;
    let (gnd, rest) = gnd(rest)?;
    let (set, rest) = set(rest, power, gnd)?;
    let (domain, rest) = domain(rest, power, gnd)?;
    let (state, rest) = state(rest, power, set)?;
    let voltage = voltage(rest)?;
    if power == gnd {
        return None;
    }
    Some(Spelled {
        power,
        gnd,
        set,
        domain,
        state,
        voltage,
    })
}

#[tactic(auto, unfolding(crate::specs::Reading::intent_at))]
fn intent(alloc: Global, bytes: &[u8]) -> Result<Option<Intent>, NoMemory>
    ensures { IfOk result (λ o. o ≡ intent_at bytes.now) }
{
    if bytes.len() > LIMIT {
        return Ok(None);
    }
    match spelled(bytes) {
        None => Ok(None),
        Some(spelled) => Ok(Some(spelled.copied(alloc)?)),
    }
}

/// The intent that a UPF text denotes, or none where it denotes none: then it is above `LIMIT`
/// bytes or differs from the one form that is read.
///
/// # Errors
///
/// `NoMemory` where an allocation is refused.
pub fn read_intent(alloc: Global, bytes: &[u8]) -> Result<Option<Intent>, NoMemory>
    ensures found { IfOk result (λ o. IfSome o (λ i. IsIntent bytes.now i)) }
    ensures only { IfOk result (λ o. (i : Intent) → IsIntent bytes.now i → o ≡ Some i) }
{
    intent(alloc, bytes)
}

/// Each text denotes at most one intent.
pub fn one_intent()
    ensures { (text : List ℕ) (a b : Intent) → IsIntent text a → IsIntent text b → a ≡ b }
{}
