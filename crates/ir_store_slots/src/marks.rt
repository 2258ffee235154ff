//! Two lists of slots: those of held operations, and those of the module's operations with removed keys.
ghost use Rattle.std.specs.Prelude.{◌≡◌, suc, ◌+◌, ◌<◌, ◌∷◌, [], length, slice_set, IfOk, OnOk};
ghost use Rattle.ir_store_lists.specs.Lists.{free};
ghost use Rattle.ir_store_slots.specs.Rows.{row_at};
ghost use Rattle.ir_store_slots.specs.Marks.{mark, home_of, node_of_slot, CanMark, CanPut, Reaches};

use ir_store_arena::Slots;
use ir_store_lists::LinkedLists;
use std::alloc::{AllocError, Global};

/// Returns both lists, empty.
pub fn new_marks(alloc: Global) -> Result<LinkedLists, AllocError>
    ensures { IfOk result (λ c. c.homes ≡ 0 ∷ 1 ∷ []) }
{
    let mut marks = LinkedLists::new(alloc);
    match marks.add_head() {
        Ok(_) => {}
        Err(e) => return Err(e),
    }
    match marks.add_head() {
        Ok(_) => {}
        Err(e) => return Err(e),
    }
    Ok(marks)
}

/// Adds nodes until there is one for each of `count` slots.
pub fn reach(marks: &mut LinkedLists, count: usize) -> Result<(), AllocError>
    requires { count < free }
    ensures nodes { Reaches marks.old.homes marks.new.homes }
    ensures there { OnOk result (suc count < length marks.new.homes) }
{
    'nodes: while marks.len() < 2 || marks.len() - 2 < count {
        match marks.add_node() {
            Ok(_) => {}
            Err(e) => return Err(e),
        }
    }
    Ok(())
}

/// Returns the list to which a slot belongs, or `None` if it belongs to neither.
fn mark_at(slots: &Slots, key: usize) -> Option<usize>
    ensures { result ≡ mark (row_at slots.now key) }
{
    if !slots.is_live(key) {
        return if slots.is_used(key) { Some(0) } else { None };
    }
    if slots.has_gone(key) { Some(1) } else { None }
}

/// Removes a node from its list, if it is in one, and appends it to another list, if one is given.
fn set_home(marks: &mut LinkedLists, node: usize, list: Option<usize>)
    requires { CanPut marks.old.homes node list }
    ensures { marks.new.homes ≡ slice_set marks.old.homes node (home_of list) }
{
    if marks.head_of(node).is_some() {
        marks.remove(node);
    }
    if let Some(head) = list {
        marks.push_back(node, head);
    }
}

/// Moves a slot to the list to which its row belongs.
pub fn link_slot(marks: &mut LinkedLists, slots: &Slots, key: usize)
    requires { CanMark marks.old.homes key }
    ensures { marks.new.homes ≡ slice_set marks.old.homes (node_of_slot key) (home_of (mark (row_at slots.now key))) }
{
    marks.laws();
    set_home(marks, key + 2, mark_at(slots, key));
}
