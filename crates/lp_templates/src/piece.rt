ghost use Rattle.std.specs.Prelude.{◌<◌};
ghost use Rattle.lp_templates.specs.Ends.{end_of};

use lp_model::EdgeFrom;

/// Places one after another, or one constant as many times. It takes 12 bytes.
#[derive(Clone, Copy)]
pub(crate) struct Piece {
    /// How many there are.
    pub count: u32,
    /// The first place, or the constant.
    pub from: EdgeFrom,
    /// No place is past 32 bits.
    ghost fits: { end_of from count < 4294967296 },
}
