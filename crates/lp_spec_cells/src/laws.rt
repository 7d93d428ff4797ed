//! Laws about the definitions alone: each is the clause of a function that does nothing.
ghost use Rattle.lp_spec_cells.specs.PinLaws.{LooksAtItsPins, ShifterLooksAtItsPins, SwitchFeeds, AddedHoldNoState, RegistersHoldState, ShifterIsInside};
ghost use Rattle.lp_spec_cells.specs.RelatedLaws.{SourceRelates, RegisterRelates, PlainPinRelates, ClampRelates, ShifterOutputRelates, ShifterDataRelates, SwitchPinRelates};
ghost use Rattle.lp_spec_cells.specs.RegisterLaws.{RegisterDoes, RegisterSaves, RegisterShows, SourceDoes, SourceShows};
ghost use Rattle.lp_spec_cells.specs.Laws.{ClampGives, ClampShows, FunctionsAgree, RelatedToItsSet, ShifterIsUp, ShifterPasses, ShifterShows, SwitchGives, UpWhereItsSetsAreOn};

/// Equal functions of two cells have one value, unknown values too, where the input pins that both cells have and the
/// state have the same values.
pub fn functions_agree()
    ensures { FunctionsAgree }
{}

/// What is lost exactly with some supply sets is up, whatever unknown supplies are, exactly where all of them are on.
pub fn up_where_its_sets_are_on()
    ensures { UpWhereItsSetsAreOn }
{}

/// The output of a cell that fits a clamp is the clamp value while its enable is active, its data else, and X where
/// these differ and the enable is unknown.
pub fn clamp_gives()
    ensures { ClampGives }
{}

/// The output of a cell that fits a clamp shows its clamp value or its data while the clamp's supply is on, else X.
pub fn clamp_shows()
    ensures { ClampShows }
{}

/// The function of the output of a cell that fits a level shifter passes its data.
pub fn shifter_passes()
    ensures { ShifterPasses }
{}

/// The output of a cell that fits a level shifter is up exactly where both supplies are on, or exactly where the output
/// supply is on.
pub fn shifter_is_up()
    ensures { ShifterIsUp }
{}

/// The output of a cell that fits a level shifter shows its data while it is up, unless its supplies are outside its type
/// or its ranges.
pub fn shifter_shows()
    ensures { ShifterShows }
{}

/// A pin whose related pins are joined to a supply set has the states of this set as its related supply.
pub fn related_to_its_set()
    ensures { RelatedToItsSet }
{}

/// The switched pin of a cell that fits a power switch has the state of the switch's input while its control is active, is
/// off while it is not, and is unknown where the control is, unless the input is off too.
pub fn switch_gives()
    ensures { SwitchGives }
{}

/// The state of a cell that fits a register with retention: what the source's cell makes of its pins, or the copy where it
/// is restored, while the primary supply is on.
pub fn register_does()
    ensures { RegisterDoes }
{}

/// The copy of a cell that fits a register with retention: the state where it is saved, else the copy before, while the
/// retention supply is on.
pub fn register_saves()
    ensures { RegisterSaves }
{}

/// The outputs of a cell that fits a register with retention: those of the source's cell while the primary supply is on.
pub fn register_shows()
    ensures { RegisterShows }
{}

/// A cell of the source that is lost exactly with the primary supply of its domain has its outputs while this is on.
pub fn source_shows()
    ensures { SourceShows }
{}

/// A cell of the source that is lost exactly with the primary supply of its domain keeps its state while this is on.
pub fn source_does()
    ensures { SourceDoes }
{}

/// Each pin of a cell of the source relates to the primary supply of its domain.
pub fn source_relates()
    ensures { SourceRelates }
{}

/// Each pin of a register with retention relates to the primary supply or to the retention supply.
pub fn register_relates()
    ensures { RegisterRelates }
{}

/// Each pin of a register with retention that is no retention pin relates to the primary supply.
pub fn plain_pin_relates()
    ensures { PlainPinRelates }
{}

/// Each pin of a clamp relates to the clamp's supply.
pub fn clamp_relates()
    ensures { ClampRelates }
{}

/// The output of a level shifter relates to the output supply.
pub fn shifter_output_relates()
    ensures { ShifterOutputRelates }
{}

/// The data of a level shifter relates to the input supply, or to the output supply where both pins relate to
/// one power pin.
pub fn shifter_data_relates()
    ensures { ShifterDataRelates }
{}

/// The switch pin of a power switch relates to the switch's input.
pub fn switch_pin_relates()
    ensures { SwitchPinRelates }
{}

/// The outputs and the switched pins of a cell that is no level shifter look only at its input pins, at its
/// power and ground pins and at its state.
pub fn looks_at_its_pins()
    ensures { LooksAtItsPins }
{}

/// A level shifter looks at these too, where it is outside its type and ranges in both assignments or in neither.
pub fn shifter_looks_at_its_pins()
    ensures { ShifterLooksAtItsPins }
{}

/// The switched pin of a cell that fits a power switch is on only where the switch's input is, whatever its
/// control.
pub fn switch_feeds()
    ensures { SwitchFeeds }
{}

/// The cells of clamps, level shifters and switches hold no state.
pub fn added_hold_no_state()
    ensures { AddedHoldNoState }
{}

/// A register with retention stands only for a register.
pub fn registers_hold_state()
    ensures { RegistersHoldState }
{}

/// A cell that fits a level shifter is inside its type and ranges where its supplies are.
pub fn shifter_is_inside()
    ensures { ShifterIsInside }
{}
