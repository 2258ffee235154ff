//! Counts the operations that lowerings make.
ghost use Rattle.std.specs.Prelude.{◌≡◌};
ghost use Rattle.patterns_lowering.specs.Plans.{IsOfSome, lowering_makes};

use crate::marks::marked;
use crate::plan::Lowering;

/// Returns the number of operations that a plan makes.
pub fn lowering_makes(plan: &Lowering) -> u64
    requires { IsOfSome plan.now }
    ensures { result ≡ lowering_makes plan.now }
{
    match plan {
        Lowering::Operation(of) => {
            u64::from(marked(&of.index_operands)) + 1 + u64::from(marked(&of.index_results))
        }
        Lowering::Loop(of) => {
            let results = u64::from(marked(&of.of.index_results));
            u64::from(marked(&of.of.index_operands))
                + 1
                + results
                + of.arguments.len() as u64
                + u64::from(marked(&of.index_arguments))
                + results
        }
        Lowering::Choice(of) => 1 + 3 * u64::from(marked(&of.of.index_results)),
    }
}
