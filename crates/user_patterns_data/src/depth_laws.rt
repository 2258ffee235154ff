//! A law of shallow patterns. A law is a function without effect whose contract states a theorem.
ghost use Rattle.user_patterns_data.specs.Alike.{PlansAlike};

/// A shallow pattern has the same plan at two operations whose defining operations agree over two levels, for any next
/// free ids.
pub fn shallow_patterns_plan_alike()
    ensures { PlansAlike }
{}
