//! Laws of the voltages of supplies: each is the clause of a function that does nothing.
ghost use Rattle.lp_spec_voltages.specs.Laws.{SettledIsFed, OnAsItsInput, OnAsItsRoot, PowersHaveStates, InputsHaveStates, WithinNotLower};
ghost use Rattle.lp_spec_voltages.specs.Laws.{PairsHoldTheVoltages, TakenIsInside, PowerOfFunctions, FittingIsInside, NoReaderIsUnder, NoClampIsUnder};
ghost use Rattle.lp_spec_voltages.specs.Laws.{NoInputIsUnder, OutputsShowTheirNodes, NoControlIsUnder, SetsByTheirPowers, PairsByTheirPowers, ReadsItsNode};
ghost use Rattle.lp_spec_voltages.specs.Laws.{ShiftersTakeTheirRail, WaysTakeTheirRail, LostBehindAnOffRail, ShiftedByTheOutput, OperatorsStandInTheirChain};
ghost use Rattle.lp_spec_voltages.specs.Laws.{NoEnableIsUnder, NoSwitchPinIsUnder, NoRetentionPinIsUnder, SharedPowerIsNotUnder, NeverUnderItself};
ghost use Rattle.lp_spec_voltages.specs.Laws.{SourcePowers, RegisterPowers, RetentionPowers, ClampPowers, ShifterOutputPower, ShifterDataPower};
ghost use Rattle.lp_spec_voltages.specs.Laws.{NoReadingSetIsUnder, NoOutputIsUnder, PinPowerStands, PinsReadTheirNodes, TopPowers};
ghost use Rattle.lp_spec_voltages.specs.Laws.{ShiftersAreNeverUnfit, ShiftersReadTheirData};

/// In what settles under intent, for an event within the rows, supplies are fed as they are in that event.
pub fn settled_is_fed()
    ensures { SettledIsFed }
{}

/// A switch that is on has the state of its input.
pub fn on_as_its_input()
    ensures { OnAsItsInput }
{}

/// A supply that is on has the state of the port that feeds it.
pub fn on_as_its_root()
    ensures { OnAsItsRoot }
{}

/// Where no port lacks states, the port that feeds the power of a used set has some.
pub fn powers_have_states()
    ensures { PowersHaveStates }
{}

/// Where no port lacks states, the port that feeds the input of a switch has some.
pub fn inputs_have_states()
    ensures { InputsHaveStates }
{}

/// A supply that the state table does not allow to be lower than another is never under it.
pub fn within_not_lower()
    ensures { WithinNotLower }
{}

/// The voltages of two supplies that are on are one of the pairs that the state table allows.
pub fn pairs_hold_the_voltages()
    ensures { PairsHoldTheVoltages }
{}

/// A shifter that takes all pairs of voltages of its two supplies is never outside its type and ranges.
pub fn taken_is_inside()
    ensures { TakenIsInside }
{}

/// The state of the power of a set is that of the origin of its power function.
pub fn power_of_functions()
    ensures { PowerOfFunctions }
{}

/// The cell of a shifter, if it fits, is never outside its type and ranges.
pub fn fitting_is_inside()
    ensures { FittingIsInside }
{}

/// Where no level is uncovered, nothing that reads is under what reaches it.
pub fn no_reader_is_under()
    ensures { NoReaderIsUnder }
{}

/// Where no level is uncovered, a clamp is not under the rail that reaches it.
pub fn no_clamp_is_under()
    ensures { NoClampIsUnder }
{}

/// Where no level is uncovered, an input pin is not under the rail of its node.
pub fn no_input_is_under()
    ensures { NoInputIsUnder }
{}

/// Where no level is uncovered, a top output shows the value of its node.
pub fn outputs_show_their_nodes()
    ensures { OutputsShowTheirNodes }
{}

/// Where no control is too low, none is under a supply that reads it.
pub fn no_control_is_under()
    ensures { NoControlIsUnder }
{}

/// A set whose power is never under that of another is not under it.
pub fn sets_by_their_powers()
    ensures { SetsByTheirPowers }
{}

/// Nor is a related supply with such a power, whatever its ground counts as.
pub fn pairs_by_their_powers()
    ensures { PairsByTheirPowers }
{}

/// In the chain of a boundary bit the input supply of a shifter is the rail that reaches it.
pub fn shifters_take_their_rail()
    ensures { ShiftersTakeTheirRail }
{}

/// On any way the input supply of a shifter is the rail that reaches it.
pub fn ways_take_their_rail()
    ensures { WaysTakeTheirRail }
{}

/// What comes from a rail that is off is lost, also between two operators.
pub fn lost_behind_an_off_rail()
    ensures { LostBehindAnOffRail }
{}

/// A shifter passes its value wherever its output supply is on, since behind an input supply that is off there is none.
pub fn shifted_by_the_output()
    ensures { ShiftedByTheOutput }
{}

/// An operator stands in the chain of its boundary bit at its number.
pub fn operators_stand_in_their_chain()
    ensures { OperatorsStandInTheirChain }
{}

/// Where no control is too low, the enable of a clamp is not under the clamp's supply.
pub fn no_enable_is_under()
    ensures { NoEnableIsUnder }
{}

/// Where no control is too low, the control of a switch is not under its input.
pub fn no_switch_pin_is_under()
    ensures { NoSwitchPinIsUnder }
{}

/// Where no control is too low, a save or restore signal is under neither the primary supply of its register nor the retention supply.
pub fn no_retention_pin_is_under()
    ensures { NoRetentionPinIsUnder }
{}

/// Where the data and the output of a fitting shifter relate to one power pin, its input supply is never under its output supply.
pub fn shared_power_is_not_under()
    ensures { SharedPowerIsNotUnder }
{}

/// A supply is never under itself.
pub fn never_under_itself()
    ensures { NeverUnderItself }
{}

/// Each pin of a cell of the source has the power of its domain's primary supply.
pub fn source_powers()
    ensures { SourcePowers }
{}

/// So has each pin of a retention register that is no retention pin.
pub fn register_powers()
    ensures { RegisterPowers }
{}

/// A retention pin has this power or that of the retention supply.
pub fn retention_powers()
    ensures { RetentionPowers }
{}

/// Each pin of a clamp has the power of the clamp's supply.
pub fn clamp_powers()
    ensures { ClampPowers }
{}

/// The output of a shifter has the power of its output supply.
pub fn shifter_output_power()
    ensures { ShifterOutputPower }
{}

/// The data pin of a shifter has the power of its input supply, or that of its output supply where both relate to one power pin.
pub fn shifter_data_power()
    ensures { ShifterDataPower }
{}

/// A pin reads its node where the power of the node's driver, if it has one, is never under the pin's own.
pub fn reads_its_node()
    ensures { ReadsItsNode }
{}

/// Where no level is uncovered, no set that reads is under the rail that reaches it.
pub fn no_reading_set_is_under()
    ensures { NoReadingSetIsUnder }
{}

/// The related supply of a pin has the state of the origin of its power.
pub fn pin_power_stands()
    ensures { PinPowerStands }
{}

/// The supplies that drive and read the ports of the top have the powers of their sets.
pub fn top_powers()
    ensures { TopPowers }
{}

/// A shifter that stands in a netlist is never outside its type and ranges.
pub fn shifters_are_never_unfit()
    ensures { ShiftersAreNeverUnfit }
{}

/// And it reads the value of its data.
pub fn shifters_read_their_data()
    ensures { ShiftersReadTheirData }
{}

/// Where no level is uncovered, a top output is not under the rail of its node.
pub fn no_output_is_under()
    ensures { NoOutputIsUnder }
{}

/// A pin of a cell reads its node where the power of the node's driver is never under the origin of its own.
pub fn pins_read_their_nodes()
    ensures { PinsReadTheirNodes }
{}
