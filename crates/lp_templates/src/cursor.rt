ghost use Rattle.std.specs.Prelude.{◌≡◌, ◌≤◌, ◌<◌, ◌+◌, ◌++◌, [], MatchOption};
ghost use Rattle.lp_spec_bridge.specs.Templates.{at_start};
ghost use Rattle.lp_templates.specs.Ends.{end_of};
ghost use Rattle.lp_templates.specs.Pieces.{places_from, places_in, rest_of, BeginsFilled};

use crate::piece::Piece;
use lp_model::{EdgeFrom, NodeId};

/// Pieces that are taken from the front, also in part.
#[derive(Clone, Copy)]
pub(crate) struct Cursor<'a> {
    pub piece: Piece,
    pub later: &'a [Piece],
}

/// The pieces from the first one on that has a place.
fn filled(pieces: &[Piece]) -> &[Piece]
    ensures same { places_in result.now ≡ places_in pieces.now }
    ensures first { BeginsFilled result.now }
{
    for k in 0..pieces.len() {
        if pieces[k].count > 0 {
            return &pieces[k..];
        }
    }
    &[]
}

/// What comes so many places behind.
fn behind(from: EdgeFrom, steps: u32) -> EdgeFrom
    requires { end_of from steps < 4294967296 }
    ensures { result ≡ at_start steps from }
{
    match from {
        EdgeFrom::Node(place) => EdgeFrom::Node(NodeId(steps + place.0)),
        EdgeFrom::Const(value) => EdgeFrom::Const(value),
    }
}

/// What is left of a piece behind its first places.
fn shortened(piece: Piece, steps: u32) -> Piece
    requires { steps ≤ piece.count }
    ensures count { result.count + steps ≡ piece.count }
    ensures from { result.from ≡ at_start steps piece.from }
{
    Piece {
        count: piece.count - steps,
        from: behind(piece.from, steps),
    }
}

impl<'a> Cursor<'a> {
    /// Before the first of the pieces.
    pub fn new(pieces: &'a [Piece]) -> Cursor<'a>
        ensures { rest_of result ≡ places_in pieces.now }
    {
        let piece = Piece {
            count: 0,
            from: EdgeFrom::Const(false),
        };
        Cursor {
            piece,
            later: pieces,
        }
    }

    /// The first piece that is left and has a place.
    pub fn front(&mut self) -> Option<Piece>
        ensures same { rest_of self.new ≡ rest_of self.old }
        ensures front { MatchOption result (rest_of self.old ≡ []) (λ p. (self.new.piece ≡ p) × (0 < p.count)) }
    {
        if self.piece.count > 0 {
            return Some(self.piece);
        }
        match filled(self.later) {
            [] => None,
            [piece, later @ ..] => {
                self.piece = *piece;
                self.later = later;
                Some(*piece)
            }
        }
    }

    /// Takes the first places of the piece at the front.
    pub fn skip(&mut self, steps: u32)
        requires { steps ≤ self.old.piece.count }
        ensures { rest_of self.old ≡ places_from self.old.piece.from steps ++ rest_of self.new }
    {
        self.piece = shortened(self.piece, steps);
    }
}
