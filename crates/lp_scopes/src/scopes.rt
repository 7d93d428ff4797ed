ghost use Rattle.std.specs.Prelude.{◌≡◌, ◌≤◌, length, map, IfOk};
ghost use Rattle.lp_text.specs.Texts.{text_at};
ghost use Rattle.lp_scopes.specs.Numbered.{inst_key, leaf_key, all_noted, longest_of};

use crate::keys::Keys;
use lp_model::{Inst, Leaf};
use lp_text::{Names, NoMemory};
use std::alloc::Global;

/// Which instances and cell instances stand in which instances, by name. It does not change.
#[derive(Drop)]
pub struct Scopes {
    pub(crate) instances: Keys,
    pub(crate) leaves: Keys,
    /// The bytes of the longest name of an instance.
    pub(crate) longest: usize,
}

/// Where a module instance stands, and its name.
fn inst_key(inst: &Inst) -> Option<(u32, u32)>
    ensures { result ≡ inst_key inst.now }
{
    match inst.parent {
        Some(parent) => Some((parent.0, inst.name.0)),
        None => None,
    }
}

/// The module instances by where they stand.
pub(crate) fn inst_keys(alloc: Global, instances: &[Inst]) -> Result<Keys, NoMemory>
    requires { length instances.now ≤ 4294967295 }
    ensures { IfOk result (λ keys. keys ≡ all_noted (map inst_key instances.now)) }
{
    let mut keys = Keys::new(alloc);
    for (place, inst) in instances.iter().enumerate() {
        keys.note(inst_key(inst), place as u32)?;
    }
    Ok(keys)
}

/// The cell instances by where they stand.
pub(crate) fn leaf_keys(alloc: Global, leaves: &[Leaf]) -> Result<Keys, NoMemory>
    requires { length leaves.now ≤ 4294967295 }
    ensures { IfOk result (λ keys. keys ≡ all_noted (map leaf_key leaves.now)) }
{
    let mut keys = Keys::new(alloc);
    for (place, leaf) in leaves.iter().enumerate() {
        keys.note(Some((leaf.inst.0, leaf.name.0)), place as u32)?;
    }
    Ok(keys)
}

/// How long a name is.
fn name_len(names: &Names, inst: &Inst) -> usize
    ensures { result ≡ length (text_at names.now inst.now.name.0) }
{
    if inst.name.0 < names.count() {
        names.text(inst.name).len()
    } else {
        0
    }
}

/// How long the longest name of an instance is, `..` included.
pub(crate) fn longest_of(names: &Names, instances: &[Inst]) -> usize
    ensures { result ≡ longest_of names.now instances.now }
{
    let mut longest = 2;
    for inst in instances {
        longest = name_len(names, inst).max(longest);
    }
    longest
}
