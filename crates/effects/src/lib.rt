//! The effects of operations, and dead operations: two listeners (`effects`, `dead`), and a test of one operation
//! (`dead_op`).
#![tactic(auto)]

mod collect;
mod counting;
mod counts;
pub mod dead;
pub mod dead_op;
pub mod effect_kinds;
pub mod effect_rows;
pub mod effects;
mod follow;
mod own;
mod packed;
mod report;
pub mod row;
mod row_map;
mod table;
mod tally;
pub mod use_counts;
mod walk;
