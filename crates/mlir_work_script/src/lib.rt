//! The script language: parses the lines of a script and writes the replies.
//!
//! - `command`, `session_command` and `registry_command` parse the three groups of commands.
//! - `expected_refusal` parses `expect REFUSAL COMMAND`.
//! - `rule_lists` parses lists of rules and patterns.
//! - `replies` writes the lines of the output, and `outcome` has the words of transformations.
#![tactic(auto)]

pub mod command;
pub mod expected_refusal;
pub mod outcome;
pub mod registry_command;
pub mod replies;
pub mod rule_lists;
pub mod session_command;
