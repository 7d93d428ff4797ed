ghost use Rattle.lp_domains.specs.Laws.{UnconnectedUnread};

/// A boundary bit that no edge has has no readers, so no strategy applies there.
#[tactic(auto, using(crate::proofs::Unread::unread))]
pub fn unconnected_bits_have_no_readers()
    ensures { UnconnectedUnread }
{}
