//! Resolves an insertion point to a place in the module.
ghost use Rattle.std.specs.Prelude.{◌≡◌, None, Some, is_some, option_map};
ghost use Rattle.ir_event.specs.trees.Ids.{has_id};
ghost use Rattle.ir_event.specs.trees.Places.{place_of};
ghost use Rattle.ir_event.specs.tree_laws.Reads.{ops_at};
ghost use Rattle.rewriter_machine.specs.Points.{passing, coming, trailing, next_to, in_block, point_place};
ghost use Rattle.mlir_work_script_base.specs.InsertionPoints.{insertion_point_of};

use crate::insertion_points::InsertionPoint;
use ir_event::trees::place::Place;
use ir_event::types::ids::OpId;
use ir_event::types::refusal::Refusal;
use ir_event::world::World;

/// Returns the next operation of a block, skipping the operation that is being moved.
fn passing(world: &World, moved: Option<OpId>, next: Option<OpId>) -> Option<OpId>
    ensures { result ≡ passing moved next world.now.store.module_of.tree }
{
    let Some(moved) = moved else {
        return next;
    };
    match next {
        None => None,
        Some(op) => {
            if op == moved {
                world.store.next(moved)
            } else {
                Some(op)
            }
        }
    }
}

/// Returns the place directly before an operation.
fn before(world: &World, op: OpId) -> Result<Place, Refusal>
    ensures { result ≡ next_to (has_id op world.now.store.module_of.tree) (option_map (coming (Some op)) (place_of op world.now.store.module_of.tree)) }
{
    if !world.store.in_tree(op) {
        return Err(Refusal::NoSuchOp);
    }
    let Some(place) = world.store.place(op) else {
        return Err(Refusal::IsRoot);
    };
    Ok(Place {
        parent: place.parent,
        region: place.region,
        before: Some(op),
    })
}

/// Returns the place directly after an operation, skipping the operation that is being moved.
fn after(world: &World, moved: Option<OpId>, op: OpId) -> Result<Place, Refusal>
    ensures { result ≡ next_to (has_id op world.now.store.module_of.tree) (option_map (trailing moved world.now.store.module_of.tree) (place_of op world.now.store.module_of.tree)) }
{
    if !world.store.in_tree(op) {
        return Err(Refusal::NoSuchOp);
    }
    let Some(place) = world.store.place(op) else {
        return Err(Refusal::IsRoot);
    };
    Ok(Place {
        parent: place.parent,
        region: place.region,
        before: passing(world, moved, place.before),
    })
}

/// Returns whether a region of an operation has a block.
fn has_block(world: &World, op: OpId, region: u32) -> bool
    ensures { result ≡ is_some (ops_at op region world.now.store.module_of.tree) }
{
    match world.shown(op) {
        None => false,
        Some(node) => node.arguments(region as usize).is_some(),
    }
}

/// Returns a place in the block of a region of an operation.
fn inside(world: &World, op: OpId, region: u32, before: Option<OpId>) -> Result<Place, Refusal>
    ensures { result ≡ in_block (has_id op world.now.store.module_of.tree) (is_some (ops_at op region world.now.store.module_of.tree)) (record { parent = op; region = region; before = before }) }
{
    if !world.store.in_tree(op) {
        return Err(Refusal::NoSuchOp);
    }
    if !has_block(world, op, region) {
        return Err(Refusal::NoSuchIndex);
    }
    Ok(Place {
        parent: op,
        region,
        before,
    })
}

/// Returns the place that an insertion point names; `moved` is the operation that is being moved, or `None` for a new
/// operation.
///
/// Errors: `NoSuchOp` if the named operation isn't in the module; `IsRoot` if it is the module's root, which has no
/// siblings; `NoSuchIndex` if it has no block in that region.
pub fn place_for(
    world: &World,
    moved: Option<OpId>,
    point: &InsertionPoint,
) -> Result<Place, Refusal>
    ensures { result ≡ point_place moved (insertion_point_of point.now) world.now.store.module_of.tree }
{
    match *point {
        InsertionPoint::Before(op) => before(world, op),
        InsertionPoint::After(op) => after(world, moved, op),
        InsertionPoint::Start(op, region) => {
            let first = passing(world, moved, world.store.first(op, region));
            inside(world, op, region, first)
        }
        InsertionPoint::End(op, region) => inside(world, op, region, None),
    }
}
