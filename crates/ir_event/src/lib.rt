//! Events and listeners. A listener that is notified of an event, and agreed with the module before it, agrees with the
//! module after it or is stale. A panel notifies all of its listeners.
#![tactic(auto)]

pub mod analysis;
pub mod contexts;
mod edits;
pub mod event;
pub mod laws;
mod loads;
mod of_module;
pub mod panel;
pub mod row;
pub mod step_laws;
pub mod subject;
pub mod subject_rows;
pub mod tag;
mod undo;
pub mod view;
pub mod world;

pub use ir_store as store;
pub use ir_store::{trees, types};
pub use op_registry as registry;
