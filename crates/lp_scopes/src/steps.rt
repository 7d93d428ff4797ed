ghost use Rattle.std.specs.Prelude.{◌≡◌, ◌<◌, length, option_map, slice_index, ◌==◌};
ghost use Rattle.lp_scopes.specs.Numbered.{standing, parent_at, split_at};
ghost use Rattle.lp_scopes.specs.Spots.{spot_view, find, step};

use crate::keys::Keys;
use crate::scopes::Scopes;
use lp_model::{Inst, InstId};
use lp_text::Names;
use sqlite_items::at;

/// An instance, and what is left of a name there.
#[derive(Clone, Copy)]
pub struct Spot<'a> {
    /// The instance.
    pub inst: InstId,
    /// What is left of the name.
    pub name: &'a str,
}

/// What stands in an instance by the text of a name.
pub(crate) fn standing(keys: &Keys, names: &Names, scope: u32, name: &str) -> Option<u32>
    ensures { result ≡ standing names.now keys.now scope name.now }
{
    match names.find(name) {
        Some(name) => keys.find((scope, name.0)),
        None => None,
    }
}

/// The instance in which one stands.
fn parent_at(instances: &[Inst], scope: u32) -> Option<u32>
    ensures { result ≡ parent_at instances.now scope }
{
    match at(instances, scope as usize) {
        Some(inst) => match inst.parent {
            Some(parent) => Some(parent.0),
            None => None,
        },
        None => None,
    }
}

/// An instance by a name without steps: itself, its parent, or one that stands in it.
pub(crate) fn stepped(
    scopes: &Scopes,
    names: &Names,
    instances: &[Inst],
    scope: u32,
    name: &str,
) -> Option<u32>
    ensures { result ≡ find names.now scopes.now instances.now scope name.now }
{
    if name == "." {
        return Some(scope);
    }
    if name == ".." {
        if let Some(parent) = parent_at(instances, scope) {
            return Some(parent);
        }
    }
    standing(&scopes.instances, names, scope, name)
}

/// Whether a slash is at a place.
fn is_slash(text: &str, at: usize) -> bool
    requires { at < length text.now }
    ensures { result ≡ (slice_index text.now at == 47) }
{
    text.as_bytes()[at] == b'/'
}

/// The step by what is before a place, where a slash is there.
fn split_at<'a>(
    scopes: &Scopes,
    names: &Names,
    instances: &[Inst],
    scope: u32,
    text: &'a str,
    at: usize,
) -> Option<Spot<'a>>
    requires { at < length text.now }
    ensures { option_map spot_view result ≡ split_at (find names.now scopes.now instances.now scope) text.now at }
{
    if !is_slash(text, at) {
        return None;
    }
    match stepped(scopes, names, instances, scope, &text[..at]) {
        Some(inst) => Some(Spot {
            inst: InstId(inst),
            name: &text[at + 1..],
        }),
        None => None,
    }
}

/// The step by the longest name that a slash follows.
pub(crate) fn step<'a>(
    scopes: &Scopes,
    names: &Names,
    instances: &[Inst],
    spot: Spot<'a>,
) -> Option<Spot<'a>>
    ensures { option_map spot_view result ≡ step names.now scopes.now instances.now (spot_view spot.entry) }
{
    let mut last = None;
    let count = spot.name.len().min(scopes.longest.saturating_add(1));
    for at in 0..count {
        let found = split_at(scopes, names, instances, spot.inst.0, spot.name, at);
        if found.is_some() {
            last = found;
        }
    }
    last
}
