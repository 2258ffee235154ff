//! What is asked of a pattern.
ghost use Rattle.std.specs.Prelude.{◌≡◌, ◌≤◌, length};
ghost use Rattle.user_patterns_instructions.specs.Expressions.{claim_types, narrower_types};

use crate::aim::Aim;
use user_patterns_data::pattern::Pattern;
use width_claims::width::{Narrower, Width};

/// A pattern, what is decided of it, the types of its claims, and the most transitions of each claim.
#[derive(Clone, Copy)]
pub struct Question<'a> {
    pub pattern: &'a Pattern,
    pub aim: Aim,
    pub types: &'a [Width],
    pub narrower: &'a [Narrower],
    pub most: usize,
    pub ghost few: { length pattern.now.values.items ≤ 1000 },
    pub ghost types_are: { types.now ≡ claim_types pattern.now.value_types.items },
    pub ghost narrower_are: { narrower.now ≡ narrower_types pattern.now.value_types.items pattern.now.type_constraints.items },
}
