//! Laws of pieces and segments.

ghost use Rattle.am_segment_pieces.specs.Laws.Laws.{BlocksArrive, PiecesAreBlock, PiecesAreWords};

/// The words that carry a piece are that piece; and put together in order, the pieces of a block are the block.
#[tactic(auto, using(crate::proofs::RoundTrip::pieces_are_words, crate::proofs::Cuts::pieces_are_block))]
pub fn pieces_are_cut()
    ensures words { PiecesAreWords }
    ensures block { PiecesAreBlock }
{}

/// Where all pieces of a transfer ran, and after the first of these runs no other piece was written over one of its places, the
/// segment holds the block at its places.
#[tactic(auto, using(crate::proofs::Arrives::blocks_arrive))]
pub fn blocks_arrive()
    ensures { BlocksArrive }
{}
