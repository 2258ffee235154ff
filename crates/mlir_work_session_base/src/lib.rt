//! The parts of a session that know no script: the text of report rows (`rows`), the text of a module
//! with operation ids (`ids`), operations as JSON objects (`module_objects`, `operation_walk`, `operation_objects`, `json_text`),
//! listeners that are created by kind (`analysis_source`), and whether an operation is in the module (`subjects`).
#![tactic(auto)]

pub mod analysis_source;
pub mod ids;
mod json_text;
pub mod module_objects;
mod operation_objects;
pub mod operation_walk;
mod place;
pub mod rows;
pub mod subjects;
