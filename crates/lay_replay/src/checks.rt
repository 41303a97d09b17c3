//! What a node has to be by its mark.
ghost use Rattle.std.specs.Prelude.{◌≡◌, ◌≢◌, true, false, MatchResult};
ghost use Rattle.lay_tree.specs.Search as tree;
ghost use Rattle.lay_replay.specs.declared.verdict.Fault.TheVariants as faults;

use crate::verdict::Fault;
use lay_node::Kept;

// Whether a bound is at least a cost.
fn reaches(bound: i64, cost: u64) -> bool
    ensures { result ≡ tree.reaches bound cost }
{
    i128::from(bound) >= i128::from(cost)
}

/// A closed node, by the number of its mark, has a bound of at least the cost.
pub(crate) fn check_closed(node: u64, bound: i64, cost: u64) -> Result<(), Fault>
    ensures { MatchResult result (λ _. tree.reaches bound cost ≡ true) (λ fault. (tree.reaches bound cost ≡ false) × (fault ≡ faults.TooLow node bound)) }
{
    if reaches(bound, cost) {
        Ok(())
    } else {
        Err(Fault::TooLow { node, bound })
    }
}

/// A branched node, by the number of its mark, isn't complete.
pub(crate) fn check_branched(node: u64, kept: Kept) -> Result<(), Fault>
    ensures { MatchResult result (λ _. kept.unplaced ≢ 0) (λ fault. (kept.unplaced ≡ 0) × (fault ≡ faults.NoShape node)) }
{
    if kept.is_complete() {
        Err(Fault::NoShape { node })
    } else {
        Ok(())
    }
}
