//! Theorems about verified operations with regions.
ghost use Rattle.patterns_soundness.specs.Yields.{ChoicesAskTruth, ChoicesHandOnAll, LoopsHandOnAll};

/// If the last operation of a block of a verified loop or choice is verified, it has as many operands as the loop or
/// choice has results. A verified choice has one operand, its condition, which isn't of type index.
pub fn verified_blocks_hand_on_all()
    ensures loops { LoopsHandOnAll }
    ensures choices { ChoicesHandOnAll }
    ensures requested { ChoicesAskTruth }
{}
