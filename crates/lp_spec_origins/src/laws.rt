//! Laws that show that the definitions say what is meant: each is the clause of a function that does nothing.
ghost use Rattle.std.specs.Prelude.{◌≡◌, List, true};
ghost use Rattle.lp_spec_origins.specs.Commands.{Supply, Command};
ghost use Rattle.lp_spec_origins.specs.Groups.{Joined, connected};
ghost use Rattle.lp_spec_origins.specs.Laws.{AClosedGroupIsAll, OneOrigin, AWholeGroupIsClosed};

/// What is connected is joined; each port and net is joined with itself, and joining goes both ways and on.
pub fn joined_is_an_equivalence()
    ensures one { (commands : List Command) (a b : Supply) → connected commands a b ≡ true → Joined commands a b }
    ensures itself { (commands : List Command) (a : Supply) → Joined commands a a }
    ensures back { (commands : List Command) (a b : Supply) → Joined commands a b → Joined commands b a }
    ensures on { (commands : List Command) (a b c : Supply) → Joined commands a b → Joined commands b c → Joined commands a c }
{}

/// The group that is found from a port or net is all that is joined with it, where nothing leads out of that group.
pub fn a_closed_group_is_all()
    ensures { AClosedGroupIsAll }
{}

/// Where nothing leads out of the group that is found from a port or net, an origin that is computed for it is its one
/// origin.
pub fn one_origin()
    ensures { OneOrigin }
{}

/// Nothing leads out of the group that is found from a port or net, where the fuel is the number of ports and nets: of a
/// list that has all that some command connects, or more.
pub fn a_whole_group_is_closed()
    ensures { AWholeGroupIsClosed }
{}
