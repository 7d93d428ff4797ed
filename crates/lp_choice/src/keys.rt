ghost use Rattle.std.specs.Prelude.{◌≡◌, ◌++◌, ℕ, IfOk, OnOk};
ghost use Rattle.std.specs.List.{list_any, position};
ghost use Rattle.lp_spec_fit.specs.Equality.{once};
ghost use Rattle.lp_choice.specs.Keys.{key_of, keys_of, same_key};

use lp_text::{NameId, Names, NoMemory};
use std::alloc::Global;

/// A number for a name, which is that of another name exactly where their texts are equal.
pub(crate) fn key_of(names: &Names, name: NameId) -> u64
    ensures { result ≡ key_of names.now name.0 }
{
    if name.0 < names.count() {
        return name.0 as u64;
    }
    match names.find("") {
        Some(empty) => empty.0 as u64,
        None => names.count() as u64,
    }
}

/// The keys of names behind other keys.
pub(crate) fn add_keys(keys: &mut Vec<u64>, names: &Names, more: &[NameId]) -> Result<(), NoMemory>
    ensures { OnOk result (keys.new.items ≡ keys.old.items ++ keys_of names.now more.now) }
{
    for name in more {
        keys.push(key_of(names, *name))?;
    }
    Ok(())
}

/// Each key once, where it stands last.
pub(crate) fn once(alloc: Global, keys: &[u64]) -> Result<Vec<u64>, NoMemory>
    ensures { IfOk result (λ kept. kept.items ≡ once same_key keys.now) }
{
    let mut kept = Vec::new(alloc);
    for i in 0..keys.len() {
        if !has(&keys[i + 1..], keys[i]) {
            kept.push(keys[i])?;
        }
    }
    Ok(kept)
}

/// Whether a key is there.
fn has(keys: &[u64], key: u64) -> bool
    ensures { result ≡ list_any (same_key key) keys.now }
{
    keys.iter().any(|other| key == *other)
}

/// The place of a key.
pub(crate) fn slot_of(keys: &[u64], key: u64) -> Option<usize>
    ensures { result ≡ position (λ (other : ℕ). same_key other key) keys.now }
{
    keys.iter().position(|other| *other == key)
}
