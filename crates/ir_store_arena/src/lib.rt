//! The slots of a module under edits, and the data of operations.
//!
//! Each slot has a row, which keeps the key of the operation's data in a slab. A contract sees the list of the rows,
//! each with its operation (`specs/Rows.antt`). No contract mentions keys: keys of different rows differ, and a key is
//! used again after its operation is freed.
//!
//! The data of an operation takes no more memory than its kind needs. A dictionary keeps the slot of a removed key, so
//! that the key can be set again without memory. Only a key without a slot needs memory when it is set. A contract sees
//! the operands, the types of results, the dictionaries with the removed keys, and the regions (`specs/Contents.antt`,
//! `specs/Slots.antt`).
#![tactic(auto)]

mod area;
mod dictionary;
mod draft;
mod lookup;
mod op_arena;
mod op_data;
mod slot_kind;
mod slots;

pub use area::RegionData;
pub use dictionary::Dictionary;
pub use draft::Draft;
pub use ir_tree_laws::{trees, types};
pub use op_data::{Entries, FEW, FullData, InlineData, ListData, OpData, WithEntries};
pub use slots::Slots;
