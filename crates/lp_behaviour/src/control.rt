ghost use Rattle.std.specs.Prelude.{◌≡◌};
ghost use Rattle.lp_behaviour.specs.Registers.{copy_of, fires_of, main_of};

use lp_model::Action;
use lp_tern::{Tern, choose, negate, rise};

/// Whether an action takes place, from the control before the event and in it.
pub fn fires(action: Action, last: Tern, now: Tern) -> Tern
    ensures { result ≡ fires_of action last now }
{
    match action {
        Action::High => now,
        Action::Low => negate(now),
        Action::Rise => rise(last, now),
        Action::Fall => rise(negate(last), negate(now)),
    }
}

/// The main state after the event: the saved copy `v` where the restore takes place, else `without`.
pub fn main_next(restore: Tern, v: Tern, without: Tern) -> Tern
    ensures { result ≡ main_of restore v without }
{
    choose(restore, v, without)
}

/// The saved copy after the event: the visible state where the save takes place, else the copy `v`.
pub fn copy_next(save: Tern, visible: Tern, v: Tern) -> Tern
    ensures { result ≡ copy_of save visible v }
{
    choose(save, visible, v)
}
