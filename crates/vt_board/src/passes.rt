//! The outcome of a whole pass, in any order of its reports.

ghost use Rattle.vt_board.specs.inside.Passes.{ArePassesClosedBySums};

#[tactic(auto, using(crate::proofs::PassLemmas::closed_by_sums))]
/// Each worker reports once in a pass, in any order. If the workers sent in all as much mail of the old colour as
/// they got, the least of the reported times is announced and the round is over. Otherwise nothing is announced, and
/// a new pass begins on the same board.
pub fn passes_close_by_their_sums()
    ensures { ArePassesClosedBySums }
{}
