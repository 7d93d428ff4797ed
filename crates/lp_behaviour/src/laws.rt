//! Laws about the definitions alone: each is the clause of a function that does nothing.
ghost use Rattle.std.specs.Prelude.{◌≡◌};
ghost use Rattle.lp_tern.specs.declared.tern.Tern.{Tern};
ghost use Rattle.lp_tern.specs.declared.tern.Tern.TheVariants.{Zero};
ghost use Rattle.lp_model.specs.declared.library.Action.{Action};
ghost use Rattle.lp_behaviour.specs.Registers.{fires_of, main_of};
ghost use Rattle.lp_behaviour.specs.Laws.{AlwaysFalse, AlwaysTrue, ClearedIsZero, DisabledLatchKeeps, InverseIsComplement, NamedPinsDecide, StillFlopKeeps, ValueByBit};

/// Where the state is unknown, a function has the value that it has at both bits of the state.
pub fn value_by_bit()
    ensures { ValueByBit }
{}

/// The state variable and its inverse are never both 1: `IQ * IQN` is 0 in every state.
pub fn inverse_is_complement()
    ensures { InverseIsComplement }
{}

/// A flop whose clock stays keeps its state, where clear and preset are 0.
pub fn still_flop_keeps()
    ensures { StillFlopKeeps }
{}

/// A latch whose enable is 0 keeps its state, where clear and preset are 0.
pub fn disabled_latch_keeps()
    ensures { DisabledLatchKeeps }
{}

/// With clear 1 and preset 0 the state becomes 0, whatever comes in.
pub fn cleared_is_zero()
    ensures { ClearedIsZero }
{}

/// A restore that does not take place leaves the state as it would be without.
pub fn idle_restore_leaves()
    ensures { (action : Action) (last now v without : Tern)
        → fires_of action last now ≡ Zero → main_of (fires_of action last now) v without ≡ without }
{}

/// A function is 1 exactly where every replacement of unknown pins and of the one state bit makes it true.
pub fn always_true()
    ensures { AlwaysTrue }
{
    lp_expr::always_one();
}

/// A function is 0 exactly where every replacement of unknown pins and of the one state bit makes it false.
pub fn always_false()
    ensures { AlwaysFalse }
{
    lp_expr::always_zero();
}

/// A function depends on the values of the pins that it names alone.
pub fn named_pins_decide()
    ensures { NamedPinsDecide }
{}
