//! The places of operations of the module.
ghost use Rattle.std.specs.Prelude.{◌≡◌, ◌<◌, Some, option_map};
ghost use Rattle.ir_store_slots.specs.Lists.{IsItem, after, home_at, list_at};
ghost use Rattle.ir_store_slots.specs.Points.{id_in, slot_place};

use ir_store_slots::trees::place::Place;
use ir_store_slots::types::ids::OpId;
use ir_store_slots::use_lists::id_at;
use ir_store_slots::{OrderedLists, Slots};

/// Returns the place of the operation in a slot.
pub fn place_at(slots: &Slots, sibs: &OrderedLists, key: usize) -> Option<Place>
    requires { IsItem sibs.now.homes key }
    ensures { result ≡ Some (slot_place slots.now sibs.now.lists sibs.now.homes key) }
{
    let Some(head) = sibs.home(key) else {
        return None;
    };
    Some(Place {
        parent: id_at(slots, slots.owner(head) as usize),
        region: slots.region(head),
        before: id_after(slots, sibs, key),
    })
}

/// Returns the operation after that of a slot in its block, or `None` if it is the last one.
fn id_after(slots: &Slots, sibs: &OrderedLists, key: usize) -> Option<OpId>
    requires { IsItem sibs.now.homes key }
    ensures { result ≡ option_map (id_in slots.now) (after key (list_at sibs.now.lists (home_at sibs.now.homes key))) }
{
    match sibs.next(key) {
        None => None,
        Some(next) => Some(id_at(slots, next)),
    }
}
