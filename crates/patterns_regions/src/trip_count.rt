//! The trip count of a loop, by its bounds.
ghost use Rattle.std.specs.Prelude.{◌≡◌, IfOk};
ghost use Rattle.ir_event.specs.Modules.{module_in};
ghost use Rattle.patterns_regions.specs.Times.{is_once, times_of};

use ir_event::trees::value::Value;
use ir_event::world::World;
use patterns_plans::reads::constants::constant_value;
use std::alloc::{AllocError, Global};

/// How often a loop runs.
#[derive(Clone, Copy)]
pub enum TripCount {
    Zero,
    One,
    /// More than once, or the step isn't positive.
    Several,
}

/// Returns whether a loop whose lower bound is less than its upper bound runs once. The sum of the lower bound and the
/// step may overflow 128 bits.
fn is_once(low: i128, high: i128, step: i128) -> bool
    ensures { result ≡ is_once low high step }
{
    if step <= 0 {
        return false;
    }
    match low.checked_add(step) {
        Some(sum) => high <= sum,
        None => true,
    }
}

/// Returns the trip count of a loop, or `None` unless its bounds are known, and its step if the lower bound is less than
/// the upper bound. Otherwise the step isn't read.
pub(crate) fn known_times(
    alloc: Global,
    world: &World,
    lower: &Value,
    upper: &Value,
    step: &Value,
) -> Result<Option<TripCount>, AllocError>
    ensures { IfOk result (λ n. n ≡ times_of (module_in world.now).tree lower.now upper.now step.now) }
{
    let Some(low) = constant_value(alloc, world, lower)? else {
        return Ok(None);
    };
    let Some(high) = constant_value(alloc, world, upper)? else {
        return Ok(None);
    };
    let low = low.number();
    let high = high.number();
    if low >= high {
        return Ok(Some(TripCount::Zero));
    }
    let Some(by) = constant_value(alloc, world, step)? else {
        return Ok(None);
    };
    if is_once(low, high, by.number()) {
        return Ok(Some(TripCount::One));
    }
    Ok(Some(TripCount::Several))
}
