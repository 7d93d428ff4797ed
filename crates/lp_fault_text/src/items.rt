ghost use Rattle.std.specs.Prelude.{◌≡◌, [], ◌∷◌, IfOk, IsTrue};
ghost use Rattle.lp_fault_text.specs.declared.item.Item.TheVariants.{Number, Strategy};
ghost use Rattle.lp_fault_text.specs.declared.item.Part.TheVariants.{Bit};
ghost use Rattle.lp_fault_text.specs.Items as items;

use crate::item::{Item, Part, Which};
use lp_model::{
    CheckFault, ControlRef, DesignFault, DriverRef, EdgeId, Element, EntryRef, Fault, InstId,
    NetlistFault, PartRef, PinFault, PoweredRef, ReaderRef, RowRef, Site, StrategyFault,
    StrategyId, SupplyFault, SupplyRef,
};
use lp_text::NoMemory;
use std::alloc::Global;

/// The top instance.
const TOP: InstId = InstId(0);

fn source(part: Part) -> Item
    ensures { result ≡ items.source part }
{
    Item::Part(Which::Source, part)
}

fn powered(part: Part) -> Item
    ensures { result ≡ items.powered part }
{
    Item::Part(Which::Powered, part)
}

fn site_item(site: Site) -> Item
    ensures { result ≡ items.site_item site }
{
    match site {
        Site::Bit(edge) => source(Part::Bit(edge)),
        Site::Register(leaf) => source(Part::Leaf(leaf)),
    }
}

fn driver_item(driver: DriverRef) -> Item
    ensures { result ≡ items.driver_item driver }
{
    match driver {
        DriverRef::Pin(leaf, place) => source(Part::Pin(leaf, place)),
        DriverRef::Port(node) => source(Part::Node(node)),
        DriverRef::Nothing => Item::Nothing,
    }
}

fn reader_item(reader: ReaderRef) -> Item
    ensures { result ≡ items.reader_item reader }
{
    match reader {
        ReaderRef::Clamp(edge) => source(Part::Bit(edge)),
        ReaderRef::Pin(leaf, place) => source(Part::Pin(leaf, place)),
        ReaderRef::Port(node) => source(Part::Node(node)),
    }
}

fn control_item(control: ControlRef) -> Item
    ensures { result ≡ items.control_item control }
{
    match control {
        ControlRef::Strategy(strategy) => Item::Strategy(strategy),
        ControlRef::Switch(number) => Item::Switch(number),
    }
}

fn element_item(element: Element) -> Item
    ensures { result ≡ items.element_item element }
{
    match element {
        Element::Inst(inst) => source(Part::Inst(inst)),
        Element::Leaf(leaf) => source(Part::Leaf(leaf)),
        Element::Port(inst, place) => source(Part::Port(inst, place)),
        Element::Bit(node) => source(Part::Node(node)),
    }
}

fn supply_item(supply: SupplyRef) -> Item
    ensures { result ≡ items.supply_item supply }
{
    match supply {
        SupplyRef::Set(set) => Item::Set(set),
        SupplyRef::Port(name) | SupplyRef::Net(name) => Item::Supply(name),
    }
}

fn row_item(at: RowRef) -> Item
    ensures { result ≡ items.row_item at }
{
    match at {
        RowRef::Row(number) => Item::Number(number),
        RowRef::Origin(origin) => Item::Origin(origin),
    }
}

fn part_item(part: PartRef) -> Item
    ensures { result ≡ items.part_item part }
{
    match part {
        PartRef::Inst(inst) => source(Part::Inst(inst)),
        PartRef::Leaf(leaf) => source(Part::Leaf(leaf)),
        PartRef::Port(place) => source(Part::Port(TOP, place)),
        PartRef::Added(inst) => powered(Part::Inst(inst)),
    }
}

/// A list of items.
fn list(alloc: Global, items: &[Item]) -> Result<Vec<Item>, NoMemory>
    ensures { IfOk result (λ v. v.items ≡ items.now) }
{
    Ok(Vec::from_slice(alloc, items)?)
}

fn of_entry(alloc: Global, entry: EntryRef) -> Result<Vec<Item>, NoMemory>
    ensures { IfOk result (λ v. v.items ≡ items.entry_items entry) }
{
    match entry {
        EntryRef::Bit(edge, strategy) => {
            list(alloc, &[source(Part::Bit(edge)), Item::Strategy(strategy)])
        }
        EntryRef::Register(leaf, strategy) => {
            list(alloc, &[source(Part::Leaf(leaf)), Item::Strategy(strategy)])
        }
        EntryRef::Switch(number) => list(alloc, &[Item::Switch(number)]),
    }
}

fn of_controlled(alloc: Global, entry: EntryRef) -> Result<Vec<Item>, NoMemory>
    ensures { IfOk result (λ v. v.items ≡ items.controlled_items entry) }
{
    match entry {
        EntryRef::Switch(number) => list(alloc, &[Item::Switch(number), Item::Nothing]),
        entry => of_entry(alloc, entry),
    }
}

fn of_supplied(alloc: Global, at: PoweredRef) -> Result<Vec<Item>, NoMemory>
    ensures { IfOk result (λ v. v.items ≡ items.supplied_items at) }
{
    match at {
        PoweredRef::Pin(leaf, place) => list(
            alloc,
            &[
                powered(Part::Leaf(leaf)),
                powered(Part::PgName(leaf, place)),
            ],
        ),
        PoweredRef::Port(origin) => {
            list(alloc, &[powered(Part::Inst(TOP)), Item::Origin(origin)])
        }
    }
}

fn of_netlist(alloc: Global, which: Which, fault: &NetlistFault) -> Result<Vec<Item>, NoMemory>
    ensures { IfOk result (λ v. v.items ≡ items.netlist_items which fault.now) }
{
    match fault {
        NetlistFault::TwoDrivers { node } | NetlistFault::WireLoop { node } => {
            list(alloc, &[Item::Part(which, Part::Node(*node))])
        }
        _ => Ok(Vec::new(alloc)),
    }
}

fn of_supply(alloc: Global, fault: &SupplyFault) -> Result<Vec<Item>, NoMemory>
    ensures { IfOk result (λ v. v.items ≡ items.supply_items fault.now) }
{
    match fault {
        SupplyFault::NoDomain { .. } => Ok(Vec::new(alloc)),
        SupplyFault::NoPrimary { domain } => list(alloc, &[Item::Domain(*domain)]),
        SupplyFault::Undriven { supply } => list(alloc, &[supply_item(*supply)]),
        SupplyFault::TwoSources { net } => list(alloc, &[Item::Supply(*net)]),
        SupplyFault::SupplyLoop { switch } => list(alloc, &[Item::Switch(*switch)]),
        SupplyFault::NoStates { origin } | SupplyFault::GroundLevel { origin } => {
            list(alloc, &[Item::Origin(*origin)])
        }
        SupplyFault::StateMismatch { at } => list(alloc, &[row_item(*at)]),
        SupplyFault::GroundMismatch { first, second } => {
            list(alloc, &[Item::Set(*first), Item::Set(*second)])
        }
    }
}

/// A way from a driver to a reader, and the row that shows the fault.
fn of_way(alloc: Global, from: DriverRef, to: ReaderRef, row: u32) -> Result<Vec<Item>, NoMemory>
    ensures { IfOk result (λ v. v.items ≡ items.driver_item from ∷ items.reader_item to ∷ Number row ∷ []) }
{
    list(
        alloc,
        &[driver_item(from), reader_item(to), Item::Number(row)],
    )
}

/// A boundary bit and a strategy.
fn of_bit(alloc: Global, bit: EdgeId, strategy: StrategyId) -> Result<Vec<Item>, NoMemory>
    ensures { IfOk result (λ v. v.items ≡ items.source (Bit bit) ∷ Strategy strategy ∷ []) }
{
    list(alloc, &[source(Part::Bit(bit)), Item::Strategy(strategy)])
}

/// The fields of faults of drivers and their readers, of controls and of cells.
fn of_reading(alloc: Global, fault: &StrategyFault) -> Result<Vec<Item>, NoMemory>
    requires { IsTrue (items.is_of_reading fault.now) }
    ensures { IfOk result (λ v. v.items ≡ items.strategy_items fault.now) }
{
    match *fault {
        StrategyFault::UncoveredIsolation {
            driver,
            reader,
            row,
        }
        | StrategyFault::UncoveredLevel {
            driver,
            reader,
            row,
        }
        | StrategyFault::ShiftForbidden {
            driver,
            reader,
            row,
        } => of_way(alloc, driver, reader, row),
        StrategyFault::ControlLevel { of, node, row } => list(
            alloc,
            &[
                control_item(of),
                source(Part::Node(node)),
                Item::Number(row),
            ],
        ),
        StrategyFault::UnfitPower { instance } => list(alloc, &[source(Part::Leaf(instance))]),
        _ => Ok(Vec::new(alloc)),
    }
}

fn of_strategy(alloc: Global, fault: &StrategyFault) -> Result<Vec<Item>, NoMemory>
    ensures { IfOk result (λ v. v.items ≡ items.strategy_items fault.now) }
{
    match *fault {
        StrategyFault::Loop { node } => list(alloc, &[source(Part::Node(node))]),
        StrategyFault::NotBoundary { strategy, element } => {
            list(alloc, &[Item::Strategy(strategy), element_item(element)])
        }
        StrategyFault::Tied {
            site,
            first,
            second,
        } => list(
            alloc,
            &[
                site_item(site),
                Item::Strategy(first),
                Item::Strategy(second),
            ],
        ),
        StrategyFault::LocationOrder {
            bit,
            isolation,
            shifting,
        } => list(
            alloc,
            &[
                source(Part::Bit(bit)),
                Item::Strategy(isolation),
                Item::Strategy(shifting),
            ],
        ),
        StrategyFault::SplitSinks { bit, strategy }
        | StrategyFault::TwoShifters { bit, strategy }
        | StrategyFault::NoPlace { bit, strategy }
        | StrategyFault::ShiftTarget { bit, strategy }
        | StrategyFault::ShiftSupply { bit, strategy } => of_bit(alloc, bit, strategy),
        StrategyFault::NoCell { entry } => of_entry(alloc, entry),
        StrategyFault::NoSupply { site, strategy } => {
            list(alloc, &[site_item(site), Item::Strategy(strategy)])
        }
        _ => of_reading(alloc, fault),
    }
}

fn of_pins(alloc: Global, fault: &PinFault) -> Result<Vec<Item>, NoMemory>
    ensures { IfOk result (λ v. v.items ≡ items.pin_items fault.now) }
{
    match *fault {
        PinFault::PinUnsupplied { leaf, pg } => list(
            alloc,
            &[source(Part::Leaf(leaf)), source(Part::PgName(leaf, pg))],
        ),
        PinFault::Loop { node } => list(alloc, &[source(Part::Node(node))]),
        PinFault::NoOrigin { origin } => list(alloc, &[Item::Origin(origin)]),
    }
}

fn of_check(alloc: Global, fault: &CheckFault) -> Result<Vec<Item>, NoMemory>
    ensures { IfOk result (λ v. v.items ≡ items.check_items fault.now) }
{
    match *fault {
        CheckFault::Instance { part } => list(alloc, &[part_item(part)]),
        CheckFault::Edge { reader } => list(alloc, &[reader_item(reader)]),
        CheckFault::Control { entry } => of_controlled(alloc, entry),
        CheckFault::Supply { at } => of_supplied(alloc, at),
        CheckFault::Extra { leaf } | CheckFault::Cell { leaf } => {
            list(alloc, &[powered(Part::Leaf(leaf))])
        }
        CheckFault::UnusedSwitch { switch } => list(alloc, &[Item::Switch(switch)]),
    }
}

fn of_design(alloc: Global, fault: &DesignFault) -> Result<Vec<Item>, NoMemory>
    ensures { IfOk result (λ v. v.items ≡ items.design_items fault.now) }
{
    match fault {
        DesignFault::Netlist(fault) => of_netlist(alloc, Which::Source, fault),
        DesignFault::Supply(fault) => of_supply(alloc, fault),
        DesignFault::Strategy(fault) => of_strategy(alloc, fault),
        DesignFault::Library(_) | DesignFault::Intent(_) => Ok(Vec::new(alloc)),
    }
}

/// The fields of a fault that name parts of the design.
pub(crate) fn items_of(alloc: Global, fault: &Fault) -> Result<Vec<Item>, NoMemory>
    ensures { IfOk result (λ v. v.items ≡ items.fault_items fault.now) }
{
    match fault {
        Fault::Design(fault) => of_design(alloc, fault),
        Fault::Pins(fault) => of_pins(alloc, fault),
        Fault::Check(fault) => of_check(alloc, fault),
        Fault::Powered(fault) => of_netlist(alloc, Which::Powered, fault),
        Fault::Event(_) | Fault::Generator(_) | Fault::Loaded(..) | Fault::NotYet(_) => {
            Ok(Vec::new(alloc))
        }
    }
}
