//! The lexical layer of scripts: reads an input, splits it into lines and words, parses names and clauses, and writes
//! bytes. The crate knows no command.
//!
//! - `input` reads a whole input.
//! - `lines`, `words`, `items` and `cuts` split texts.
//! - `numbers`, `values`, `subject`, `kind`, `keys`, `insertion_points`, `rule_name` and `clauses` parse the parts of
//!   commands.
//! - `places` resolves insertion points to places in a module.
//! - `source`, `sink`, `watched`, `writing` and `cells` read and write bytes.
#![tactic(auto)]

pub mod cells;
pub mod clauses;
pub mod cuts;
pub mod input;
pub mod insertion_points;
pub mod items;
pub mod keys;
pub mod kind;
pub mod laws;
pub mod lines;
pub mod numbers;
pub mod places;
pub mod rule_name;
pub mod sink;
pub mod source;
pub mod subject;
pub mod values;
pub mod watched;
pub mod words;
pub mod writing;
