//! Data structures that listeners share.
//!
//! - `op_context`, `gather`, `fact`, `fact_table`: facts about operations that depend only on an operation's context,
//!   and tables of them. An event changes only the facts about operations near it (`laws`).
//! - `set`: sets of numbers (`BitSet`) that are visited in order. `insert` within the capacity and `remove` need no
//!   memory.
//! - `map`: maps from ids (`IdMap`). Ids in nearly ascending order are found in one step, others in as many steps as in
//!   a sorted map. A contract describes the map by the entries of an equal `BTreeMap`.
//! - `properties`: entries of operations' dictionaries, by the words that are their keys.
#![tactic(auto)]

mod bits;
pub mod fact;
pub mod fact_table;
pub mod gather;
pub mod laws;
mod map;
pub mod op_context;
pub mod properties;
mod set;

pub use ir_event as events;
pub use ir_event::store;
pub use ir_event::store::node;
pub use map::IdMap;
pub use set::BitSet;
