ghost use Rattle.std.specs.Prelude.{◌≡◌, ◌<◌, true, None, length, map, IfOk, IfErr};
ghost use Rattle.lp_text.specs.Texts.{distinct};
ghost use Rattle.lp_model.specs.Agreement.{numbers_below};
ghost use Rattle.lp_model.specs.NetlistView.{ModuleView, netlist_view, netlist_numbers};
ghost use Rattle.lp_model.specs.declared.library.Library.{Library};
ghost use Rattle.lp_order.specs.Order.{ReadsBelow};
ghost use Rattle.lp_targets.specs.Structures.{structure_of, AreNamed};
ghost use Rattle.lp_targets.specs.Reports.{shape_report, hierarchy_report, IsStop};
ghost use Rattle.lp_targets.specs.Children.{children};
ghost use Rattle.lp_targets.specs.Sizes.{AreRows, IsResolved, sizes_of, OnLibrary};

use crate::counts::measured;
use crate::looped::ordered_modules;
use crate::resolve::targets_of;
use crate::size::Size;
use crate::target::Target;
use crate::tops::top_place;
use lp_model::{Library, Netlist, Refusal};
use lp_text::Names;
use sqlite_items::Items;
use std::alloc::Global;

/// What the modules of a netlist are of, how they contain one another, and how much each has.
#[derive(Drop)]
pub struct Hierarchy {
    /// For each module what each of its instances is of.
    pub rows: Items<Items<Target>>,
    /// The places of the modules, each behind all that it contains.
    pub order: Vec<usize>,
    /// The place of the one module that none instantiates.
    pub top: usize,
    /// For each module how much it has, together with all below it.
    pub sizes: Vec<Size>,
}

/// How modules contain one another, and how much each has.
#[derive(Drop)]
struct Shape {
    order: Vec<usize>,
    top: usize,
    sizes: Vec<Size>,
}

/// The shape of modules whose instances are of these targets.
fn shape_of(
    alloc: Global,
    names: &Names,
    netlist: &Netlist,
    rows: &[Items<Target>],
) -> Result<Shape, Refusal>
    requires named { numbers_below (length names.now) (netlist_numbers netlist.now) ≡ true }
    requires few { length netlist.now.modules < 4294967295 }
    requires closed { ReadsBelow (length rows.now) (children rows.now) }
    requires one_each { length rows.now ≡ length netlist.now.modules }
    requires apart { distinct (map (λ (m : ModuleView). m.name) (netlist_view names.now netlist.now)) ≡ true }
    ensures resolved { OnLibrary names.now netlist.now rows.now (λ s. IfOk result (λ x. IsResolved s rows.now x.order.items x.top)) }
    ensures sizes { OnLibrary names.now netlist.now rows.now (λ s. IfOk result (λ x. x.sizes.items ≡ sizes_of s)) }
    ensures ok { OnLibrary names.now netlist.now rows.now (λ s. IfOk result (λ _. shape_report s ≡ None)) }
    ensures err { OnLibrary names.now netlist.now rows.now (λ s. IfErr result (IsStop names.now (shape_report s))) }
{
    let order = match ordered_modules(alloc, names, netlist, rows) {
        Ok(order) => order,
        Err(refusal) => return Err(refusal),
    };
    let top = match top_place(alloc, names, netlist) {
        Ok(top) => top,
        Err(refusal) => return Err(refusal),
    };
    match measured(alloc, netlist, rows, order.as_slice(), top) {
        Ok(sizes) => Ok(Shape { order, top, sizes }),
        Err(refusal) => Err(refusal),
    }
}

/// What each instance of each module is of, the order of the modules, the top, and how much each module has, of modules
/// whose names differ. Takes time and memory in proportion to the names, the netlist and the cells.
///
/// # Errors
///
/// The first of these: the first reserved name; the first instance whose target is no module and no cell; the first
/// module that contains itself; another number than one of modules that none instantiates; the first limit that the
/// top is over. And where memory is refused.
pub fn hierarchy_of(
    alloc: Global,
    names: &Names,
    netlist: &Netlist,
    library: &Library,
) -> Result<Hierarchy, Refusal>
    requires named { AreNamed names.now netlist.now library.now }
    requires apart { distinct (map (λ (m : ModuleView). m.name) (netlist_view names.now netlist.now)) ≡ true }
    ensures resolved { IfOk result (λ h. IsResolved (structure_of names.now netlist.now library.now) h.rows h.order.items h.top) }
    ensures count { IfOk result (λ h. length h.rows ≡ length netlist.now.modules) }
    ensures sizes { IfOk result (λ h. h.sizes.items ≡ sizes_of (structure_of names.now netlist.now library.now)) }
    ensures ok { IfOk result (λ _. hierarchy_report (structure_of names.now netlist.now library.now) ≡ None) }
    ensures err { IfErr result (IsStop names.now (hierarchy_report (structure_of names.now netlist.now library.now))) }
{
    let rows = match targets_of(alloc, names, netlist, library) {
        Ok(rows) => rows,
        Err(refusal) => return Err(refusal),
    };
    match shape_of(alloc, names, netlist, rows.as_slice()) {
        Ok(shape) => Ok(Hierarchy {
            rows,
            order: shape.order,
            top: shape.top,
            sizes: shape.sizes,
        }),
        Err(refusal) => Err(refusal),
    }
}
