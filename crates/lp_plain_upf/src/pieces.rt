ghost use Rattle.std.specs.Prelude.{◌≡◌, map};
ghost use Rattle.std.specs.Option.{option_map};
ghost use Rattle.lp_plain_upf.specs.Reading.{expect_at, before_at, all_at, named_at};

use crate::names::name;

/// What stands behind a piece at the front.
#[tactic(auto, unfolding(crate::specs::Reading::expect_at))]
pub fn expect<'a>(bytes: &'a [u8], piece: &[u8]) -> Option<&'a [u8]>
    ensures { option_map (λ x. x.now) result ≡ expect_at piece.now bytes.now }
{
    bytes.strip_prefix(piece)
}

/// What stands before a piece at the end.
#[tactic(auto, unfolding(crate::specs::Reading::before_at))]
pub fn before<'a>(bytes: &'a [u8], piece: &[u8]) -> Option<&'a [u8]>
    ensures { option_map (λ x. x.now) result ≡ before_at piece.now bytes.now }
{
    bytes.strip_suffix(piece)
}

// What stands behind pieces that follow one another.
#[tactic(auto, unfolding(crate::specs::Reading::all_at))]
fn expect_all<'a>(bytes: &'a [u8], pieces: &[&[u8]]) -> Option<&'a [u8]>
    ensures { option_map (λ x. x.now) result ≡ all_at (map (λ p. p.now) pieces.now) bytes.now }
{
    let mut rest = bytes;
    for piece in pieces {
        rest = expect(rest, piece)?;
    }
    Some(rest)
}

/// The name behind pieces that follow one another, and what stands behind the name.
#[tactic(auto, unfolding(crate::specs::Reading::named_at))]
pub fn name_behind<'a>(bytes: &'a [u8], pieces: &[&[u8]]) -> Option<(&'a [u8], &'a [u8])>
    ensures { option_map (λ x. (x.0.now, x.1.now)) result ≡ named_at (map (λ p. p.now) pieces.now) bytes.now }
{
    let rest = expect_all(bytes, pieces)?;
    name(rest)
}
