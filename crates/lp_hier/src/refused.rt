use lp_text::{Bytes, NoMemory};

/// Why a netlist has no elaborated netlist.
#[derive(Drop)]
pub enum Refused {
    /// The line of the first fault of its net bits, without its line feed.
    Line(Bytes),
    /// An allocation was refused.
    NoMemory,
}

impl From<NoMemory> for Refused {
    ghost use Rattle.std.specs.Prelude.{◌≡◌};
    ghost use Rattle.lp_hier.specs.declared.refused.Refused.TheVariants as refused;

    ghost from_gives = { λ _ e. e ≡ refused.NoMemory };

    fn from(_error: NoMemory) -> Refused {
        Refused::NoMemory
    }
}
