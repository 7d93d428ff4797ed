//! Laws that show that the definitions say what is meant: each is the clause of a function that does nothing.
ghost use Rattle.std.specs.Prelude.{◌≡◌, ◌++◌, List, Option, false};
ghost use Rattle.lp_spec_design.specs.Intents.{SetNumber};
ghost use Rattle.lp_spec_design.specs.Chains.{Operator, rail_after};
ghost use Rattle.lp_spec_settling.specs.Settling.{HasOrder, SettlesOnce};
ghost use Rattle.lp_spec_design.specs.Netlists.{Structure};
ghost use Rattle.lp_spec_design.specs.Settled.{Assignment, Design, Event, Registers, equation};
ghost use Rattle.lp_spec_design.specs.Reads.{keys, reads};
ghost use Rattle.lp_spec_design.specs.Nodes.{DeclaresBits, HasFuel, HasItsNodes, has_wire_loop};
ghost use Rattle.lp_spec_design.specs.Registers.{States};
ghost use Rattle.lp_spec_design.specs.Runs.{RunsOnce, SameRegisters};
ghost use Rattle.lp_spec_design.specs.Laws.{ActiveClampHolds, LostBehindAnOffSupply, LostWhereTheRailIsOff, UnwantedShifterStaysOut, WinnerIsAlone};

/// A winner is the only strategy of its rank among those of its kind that apply to the side.
pub fn winner_is_alone()
    ensures { WinnerIsAlone }
{}

/// A side without a clamp whose shifter is not wanted has no operator.
pub fn unwanted_shifter_stays_out()
    ensures { UnwantedShifterStaysOut }
{}

/// The rail behind two parts is the rail behind the second, to which the rail behind the first leads.
pub fn rails_go_on()
    ensures { (r : Option SetNumber) (first second : List Operator) → rail_after r (first ++ second) ≡ rail_after (rail_after r first) second }
{}

/// A clamp whose supply is on and whose control is active gives its clamp value, whatever comes in.
pub fn active_clamp_holds()
    ensures { ActiveClampHolds }
{}

/// What comes out of operators is X where the supply behind them is not on, if what came in is X where its supply is
/// not on.
pub fn lost_behind_an_off_supply()
    ensures { LostBehindAnOffSupply }
{}

/// Where all that occurs in the equations under intent has an order, exactly one assignment settles.
pub fn settles_once()
    ensures { (d : Design) (event : Event) (registers : Registers) → HasOrder keys (reads d) → SettlesOnce (equation d event registers) }
{}

/// Where all that occurs in the equations under intent has an order, there is exactly one run of the source over a list
/// of events, from what settled before them, if
/// anything did, and from the states of its registers.
pub fn runs_once()
    ensures { (d : Design) (last : Option Assignment) (states : States) (events : List Event) → HasOrder keys (reads d) → RunsOnce d last states events }
{}

/// Registers are equal to themselves.
pub fn same_registers_as_themselves()
    ensures { (d : Design) (states : States) → SameRegisters d states states }
{}

/// A node whose rail is not on is X in every assignment that settles under intent.
pub fn lost_where_the_rail_is_off()
    ensures { LostWhereTheRailIsOff }
{}

/// Where whatever has a source is one of the nodes, and no net bit reaches itself over ways alone, no way back is longer
/// than there are nodes.
#[tactic(auto, using(crate::proofs::Looped::no_loop_fuel))]
pub fn no_loop_has_fuel()
    ensures { (s : Structure) → HasItsNodes s → has_wire_loop s ≡ false → HasFuel s }
{}

/// Where each bit that is joined is declared and no module instance is deeper than 64, whatever has a source is one of
/// the nodes.
#[tactic(auto, using(crate::proofs::Sources::sources_known))]
pub fn sources_have_nodes()
    ensures { (s : Structure) → DeclaresBits s → HasItsNodes s }
{}
