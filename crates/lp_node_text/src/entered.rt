ghost use Rattle.std.specs.Prelude.{◌≡◌, None, slice_get};
ghost use Rattle.lp_node_text.specs.Numbered.{entered_from, entered_there};

use lp_templates::{Shown, Template};

/// An instance of a module among the statements of another.
#[derive(Clone, Copy)]
pub(crate) struct Entered {
    /// Its statement, counted from 0.
    pub number: usize,
    /// The module: counts the modules of the netlist from 0.
    pub of: u32,
    /// How many net bits lie before it.
    pub before: u32,
}

/// The statement of a number, where it is an instance that begins at a place or before it, else the one before.
fn entered_there(
    template: &Template,
    place: usize,
    last: Option<Entered>,
    number: usize,
) -> Option<Entered>
    ensures { result ≡ entered_there place last number (slice_get template.now.statements number) }
{
    match template.statement(number) {
        Some(Shown::OfModule(child)) => {
            if child.before.nodes as usize <= place {
                Some(Entered {
                    number,
                    of: child.of,
                    before: child.before.nodes,
                })
            } else {
                last
            }
        }
        _ => last,
    }
}

/// The last instance of a module that begins at a place or before it.
pub(crate) fn last_entered(template: &Template, place: usize) -> Option<Entered>
    ensures { result ≡ entered_from place None 0 template.now.statements }
{
    let mut last = None;
    for number in 0..template.len() {
        last = entered_there(template, place, last, number);
    }
    last
}
