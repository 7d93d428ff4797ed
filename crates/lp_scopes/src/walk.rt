ghost use Rattle.std.specs.Prelude.{◌≡◌, option_map};
ghost use Rattle.lp_scopes.specs.Numbered.{walk_by, beginning_by};
ghost use Rattle.lp_scopes.specs.Spots.{spot_view, is_end, next, last_part, instance};

use crate::scopes::Scopes;
use crate::steps::{Spot, standing, step, stepped};
use lp_model::{Inst, InstId};
use lp_text::Names;

/// What ends the steps of a name: what is left is as a whole the name of such a part.
#[derive(Clone, Copy)]
pub(crate) enum Ends {
    /// None ends them.
    Nothing,
    /// An instance.
    Instance,
    /// An instance or a cell instance.
    Part,
}

/// Whether the steps end here.
fn is_end(scopes: &Scopes, names: &Names, instances: &[Inst], ends: Ends, spot: Spot<'_>) -> bool
    ensures { result ≡ is_end names.now scopes.now instances.now ends (spot_view spot.entry) }
{
    let scope = spot.inst.0;
    match ends {
        Ends::Nothing => false,
        Ends::Instance => stepped(scopes, names, instances, scope, spot.name).is_some(),
        Ends::Part => {
            stepped(scopes, names, instances, scope, spot.name).is_some()
                || standing(&scopes.leaves, names, scope, spot.name).is_some()
        }
    }
}

/// The next step, if there is one.
fn next<'a>(
    scopes: &Scopes,
    names: &Names,
    instances: &[Inst],
    ends: Ends,
    spot: Spot<'a>,
) -> Option<Spot<'a>>
    ensures { option_map spot_view result ≡ next names.now scopes.now instances.now ends (spot_view spot.entry) }
{
    if is_end(scopes, names, instances, ends, spot) {
        return None;
    }
    step(scopes, names, instances, spot)
}

/// At most as many steps as a text has bytes.
#[tactic(auto, using(crate::proofs::Walks::walk_more))]
fn walk<'a>(
    scopes: &Scopes,
    names: &Names,
    instances: &[Inst],
    ends: Ends,
    text: &str,
    spot: Spot<'a>,
) -> Spot<'a>
    ensures { spot_view result ≡ walk_by (next names.now scopes.now instances.now ends) text.now (spot_view spot.entry) }
{
    let mut here = spot;
    for _byte in text.as_bytes() {
        match next(scopes, names, instances, ends, here) {
            Some(there) => here = there,
            None => return here,
        }
    }
    here
}

/// Where a name begins.
fn beginning<'a>(scope: InstId, text: &'a str) -> Spot<'a>
    ensures { spot_view result ≡ beginning_by scope.0 text.now }
{
    if text.is_empty() || text.as_bytes()[0] != b'/' {
        return Spot {
            inst: scope,
            name: text,
        };
    }
    Spot {
        inst: InstId(0),
        name: &text[1..],
    }
}

/// The instance in which the last part of a name is looked up, and that last part.
pub(crate) fn last_part<'a>(
    scopes: &Scopes,
    names: &Names,
    instances: &[Inst],
    ends: Ends,
    scope: InstId,
    text: &'a str,
) -> Spot<'a>
    ensures { spot_view result ≡ last_part names.now scopes.now instances.now ends scope.0 text.now }
{
    let begin = beginning(scope, text);
    walk(scopes, names, instances, ends, text, begin)
}

/// An instance by its name.
pub(crate) fn instance(
    scopes: &Scopes,
    names: &Names,
    instances: &[Inst],
    scope: InstId,
    text: &str,
) -> Option<InstId>
    ensures { option_map (λ i. i.0) result ≡ instance names.now scopes.now instances.now scope.0 text.now }
{
    if text == "/" {
        return Some(InstId(0));
    }
    let last = last_part(scopes, names, instances, Ends::Instance, scope, text);
    match stepped(scopes, names, instances, last.inst.0, last.name) {
        Some(inst) => Some(InstId(inst)),
        None => None,
    }
}
