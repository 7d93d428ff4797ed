//! Laws that show that the definitions say what is meant: each is the clause of a function that does nothing.
ghost use Rattle.lp_spec_resolved.specs.Laws.{
  ControlsAreDeclared,
  EachIsIntended,
  IntendedOnce,
  NodesAreFound,
  OriginsAreNamed,
  OriginsAreVisible,
  SetsAreNumbered,
  SetsHaveOrigins,
  StrategiesNameTheirControls,
  SwitchesAreKept,
};

/// A node of a netlist, as which the control of a switch is numbered, is found again by its number.
pub fn nodes_are_found()
    ensures { NodesAreFound }
{}

/// Each text of power intent makes something over a netlist, or has its first fault.
pub fn text_is_intended()
    ensures { EachIsIntended }
{}

/// A text of power intent makes something over a netlist, or has its first fault, in one way.
pub fn text_is_intended_once()
    ensures { IntendedOnce }
{}

/// Whatever a text of power intent makes: a strategy that inserts clamps names its control, and one that inserts
/// retention cells its two signals.
pub fn strategies_name_their_controls()
    ensures { StrategiesNameTheirControls }
{}

/// Whatever a text of power intent makes: sets are numbered in the order of their commands, and whatever names a set
/// names one of them.
pub fn sets_are_numbered()
    ensures { SetsAreNumbered }
{}

/// Each used set has its origins by its number in the project that a text of power intent gives, where F37 and F38
/// hold nowhere.
pub fn sets_have_origins()
    ensures { SetsHaveOrigins }
{}

/// Whatever a text of power intent makes: the controls of strategies and of switches are net bits that their instances
/// declare.
pub fn controls_are_declared()
    ensures { ControlsAreDeclared }
{}

/// In the project that a text of power intent gives, two supply ports of the top have two names.
pub fn origins_are_named()
    ensures { OriginsAreNamed }
{}

/// And each of these names is visible ASCII.
pub fn origins_are_visible()
    ensures { OriginsAreVisible }
{}

/// In the project that a text of power intent gives over a netlist with a top, no module instance of which is deeper
/// than 64, each switch has the control and the sense of its command, and its scope, which is an instance.
pub fn switches_are_kept()
    ensures { SwitchesAreKept }
{}
