ghost use Rattle.std.specs.Prelude.{◌≡◌, ℕ, ◌≤◌, ◌^◌, [], ◌∷◌, List, length, IfOk, true, ◌*◌, ◌+◌};
ghost use Rattle.lp_text.specs.declared.shelf.TheConstants.{LIMIT};
ghost use Rattle.std.specs.List.{list_all};
ghost use Rattle.lp_model.specs.Agreement.{numbers_below};
ghost use Rattle.lp_model.specs.LibraryView.{CellView, library_numbers};
ghost use Rattle.lp_model.specs.NetlistView.{ModuleView, module_numbers};
ghost use Rattle.lp_spec_plain_module.specs.Netlists.{powered};
ghost use Rattle.lp_verilog_tokens.specs.Lexical.{is_visible};
ghost use Rattle.lp_vwrite.specs.Layout.{layout};
ghost use Rattle.lp_vwrite.specs.WellFormed.{HasTable};
ghost use Rattle.lp_plain_upf.specs.declared.plain.Intent.{Intent};
ghost use Rattle.lp_spec_insertion.specs.Inputs.{Accepts};
ghost use Rattle.lp_spec_insertion.specs.Faults.{FirstFault};
ghost use Rattle.lp_spec_insertion.specs.Promise.{IsWritten, HeadlineHolds, report_text};
ghost use Rattle.lp_accept.specs.Inputs.{inputs_of};
ghost use Rattle.lp_accept.specs.Judged.{flat_by};
ghost use Rattle.lp_top.specs.Design.{RefusedBy, GivesFault, GivesTexts, OfStop};

use lp_accept::{Accepted, Stop, accept};
use lp_model::Netlist;
use lp_plain_index::CellIndex;
use lp_plain_joins::{connect_all, powered_is_well_formed};
use lp_spec_insertion::{no_fault, one_fault};
use lp_spec_plain_module::{flat_netlist_is_supplied, flat_runs_alike};
use lp_spec_plain_netlist::fits_are_flat;
use lp_text::{Bytes, NoMemory};
use lp_verilog_tokens::text_of;
use lp_vwrite::{numbered_has_table, reads_back, write_netlist};
use sqlite_items::Items;
use std::alloc::Global;
use std::marker::Model;

/// A fault of the inputs, seen as the bytes of its line without the line feed.
#[derive(Drop)]
pub struct Fault {
    line: Bytes,
}

impl Model for Fault {
    ghost use Rattle.std.specs.Prelude.{List, ℕ};

    ghost Value = { List ℕ };

    ghost view = { λ f. f.line };
}

impl Fault {
    pub(crate) fn new(line: Bytes) -> Fault
        ensures { result ≡ line }
    {
        Fault { line }
    }

    /// The line without its line feed.
    pub fn line(&self) -> &[u8]
        ensures { result.now ≡ self.now }
    {
        self.line.all()
    }
}

/// Why a call that takes memory gave nothing.
#[derive(Drop)]
pub enum Refusal {
    /// The first fault of the inputs.
    Fault(Fault),
    /// An allocation was refused.
    NoMemory,
}

impl From<NoMemory> for Refusal {
    ghost use Rattle.lp_top.specs.declared.design.Refusal.TheVariants as refusals;

    ghost from_gives = { λ _ e. e ≡ refusals.NoMemory };

    fn from(_error: NoMemory) -> Refusal {
        Refusal::NoMemory
    }
}

/// The texts of a finished insertion.
#[derive(Drop)]
pub struct Written {
    /// The netlist with its supplies.
    pub netlist: Bytes,
    /// The report.
    pub report: Bytes,
}

/// The report of a design in which nothing is inserted.
fn report(alloc: Global) -> Result<Bytes, NoMemory>
    ensures { IfOk result (λ b. b ≡ report_text) }
{
    Bytes::copy(
        alloc,
        b"lpinsert report 1\ntotal iso 0 shift 0 ret 0 switch 0\n",
    )
}

/// The text of the source of a design with its supplies.
fn powered_text(alloc: Global, accepted: Accepted) -> Result<Bytes, NoMemory>
    requires cells { numbers_below (length accepted.names) (library_numbers accepted.library) ≡ true }
    requires source { numbers_below (length accepted.names) (module_numbers accepted.source) ≡ true }
    requires few_names { length accepted.names ≤ 17 * LIMIT + 1 }
    requires few_cells { length accepted.library.cells ≤ 17 * LIMIT + 1 }
    requires power { list_all is_visible accepted.intent.power ≡ true }
    requires ground { list_all is_visible accepted.intent.gnd ≡ true }
    ensures laid { IfOk result (λ b. (margin : ℕ) → b ≡ layout (powered (flat_by accepted margin) ∷ [])) }
    ensures table { IfOk result (λ b. (margin : ℕ) → HasTable (powered (flat_by accepted margin) ∷ [])) }
{
    numbered_has_table();
    let Accepted {
        mut names,
        library,
        source,
        intent,
    } = accepted;
    let index = CellIndex::new(alloc, names.count(), library.cells.as_slice())?;
    let power = text_of(intent.power.all());
    let gnd = text_of(intent.gnd.all());
    let written = connect_all(alloc, &index, &mut names, source, power, gnd)?;
    let mut modules = Items::new(alloc);
    modules.push(written)?;
    let _ = names.count();
    write_netlist(alloc, &names, &Netlist { modules })
}

/// The refusal of inputs that give no design.
fn refused_by(stop: Stop) -> Refusal
    ensures { result ≡ OfStop stop }
{
    match stop {
        Stop::Fault(line) => Refusal::Fault(Fault::new(line)),
        Stop::NoMemory => Refusal::NoMemory,
    }
}

/// The two texts of a design without fault.
fn write(alloc: Global, accepted: Accepted) -> Result<Written, NoMemory>
    requires cells { numbers_below (length accepted.names) (library_numbers accepted.library) ≡ true }
    requires source { numbers_below (length accepted.names) (module_numbers accepted.source) ≡ true }
    requires few_names { length accepted.names ≤ 17 * LIMIT + 1 }
    requires few_cells { length accepted.library.cells ≤ 17 * LIMIT + 1 }
    requires power { list_all is_visible accepted.intent.power ≡ true }
    requires ground { list_all is_visible accepted.intent.gnd ≡ true }
    ensures laid { IfOk result (λ w. (margin : ℕ) → w.netlist ≡ layout (powered (flat_by accepted margin) ∷ [])) }
    ensures table { IfOk result (λ w. (margin : ℕ) → HasTable (powered (flat_by accepted margin) ∷ [])) }
    ensures report { IfOk result (λ w. w.report ≡ report_text) }
{
    let netlist = powered_text(alloc, accepted)?;
    let report = report(alloc)?;
    Ok(Written { netlist, report })
}

/// Inserts what the power intent asks for.
///
/// `libs` has at most 16 texts. `margin` is the difference in microvolts, at most 10^12, up to
/// which a reader still takes a lower driver's value. The fault is the first one of the texts.
pub fn insert_design(
    alloc: Global,
    libs: &[Bytes],
    netlist: &[u8],
    upf: &[u8],
    margin: u64,
) -> Result<Written, Refusal>
    requires few { length libs.now ≤ 16 }
    requires margin { margin ≤ 10 ^ 12 }
    // What is written, and how it reads back.
    ensures written { IfOk result (λ w. IsWritten (inputs_of libs.now netlist.now upf.now) margin w.netlist w.report) }
    // The theorem, on the bytes that are written.
    ensures headline { IfOk result (λ w. HeadlineHolds (inputs_of libs.now netlist.now upf.now) margin w.netlist) }
    // A fault is the first one of the inputs.
    ensures refused { RefusedBy (inputs_of libs.now netlist.now upf.now) result }
    // Inputs with a first fault are refused by it, and others are accepted, memory aside.
    ensures exact { (line : List ℕ) → FirstFault (inputs_of libs.now netlist.now upf.now) line → GivesFault line result }
    ensures complete { (cells : List CellView) (m : ModuleView) (i : Intent) → Accepts (inputs_of libs.now netlist.now upf.now) cells m i → GivesTexts result }
{
    fits_are_flat();
    flat_runs_alike();
    flat_netlist_is_supplied();
    powered_is_well_formed();
    reads_back();
    one_fault();
    no_fault();
    match accept(alloc, libs, netlist, upf) {
        Ok(accepted) => match write(alloc, accepted) {
            Ok(written) => Ok(written),
            Err(NoMemory) => Err(Refusal::NoMemory),
        },
        Err(stop) => Err(refused_by(stop)),
    }
}
