//! Linked lists of nodes in one `Vec`, and a table from ids to slots.
//!
//! - `chains`: doubly linked lists, each closed to a ring through its head. Every call except `nodes` takes a constant
//!   number of steps. Only `reserve`, `add_node` and `add_head` need memory.
//! - `ordered`: the same lists with labels that increase along each list. The labels give the order of two nodes of a
//!   list in a few steps. A contract sees the lists and the head of each node (`specs/Lists.antt`).
//! - `table`: the slots of ids. Ids below a bound, given when the table is made, and those that follow in order are
//!   found in one step. Other ids take as many steps as a lookup in a sorted map, so no choice of ids makes the table
//!   slow. A contract sees a finite map from ids to slots.
//! - `pages`: one number for a page of ids whose slots are in the order of the ids, as in a newly parsed module. The
//!   pages are few enough to stay in the cache.
#![tactic(auto)]

mod chains;
mod link;
mod order_labels;
mod ordered;
mod pages;
mod table;
mod write;

pub use chains::LinkedLists;
pub use ordered::OrderedLists;
pub use table::IdTable;
