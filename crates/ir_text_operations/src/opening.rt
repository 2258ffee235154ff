//! Parses an operation up to its regions. Language Reference, "Operations".
ghost use Rattle.std.specs.Prelude.{◌≡◌, []};
ghost use Rattle.ir_types.specs.Things.{IsExtendedBy};
ghost use Rattle.ir_text_types.specs.Outcomes.{Returns};
ghost use Rattle.ir_text_operations.specs.Free.{free_bound};
ghost use Rattle.ir_text_operations.specs.Openings.{opening_view, opening_at};

use crate::entries::properties;
use crate::op_header::{OpHeader, start};
use ir_text_attributes::dictionaries::Entry;
use ir_text_names::pack::ValueGroup;
use ir_text_names::spares::Spares;
use ir_text_tokens::names::ScopedNames;
use ir_text_types::error::ReadError;
use ir_text_types::steps;
use ir_tree::outer::Outer;
use ir_types::context::Context;
use ir_types::ids::NameId;
use std::alloc::Global;

/// An operation up to its regions, with its name interned.
#[derive(Drop)]
pub(crate) struct Opening<'a> {
    pub preceding: OpHeader<'a>,
    pub name: NameId,
    /// Whether the regions see no names from outside.
    pub isolated: bool,
    /// The properties that are written.
    pub written: Vec<Entry>,
    /// The rest of the text after the operands.
    pub trailing: &'a [u8],
}

/// Parses an operation up to its regions. Its lists are those of `spares`.
#[tactic(auto, using(ir_types::proofs::Growth::grows_refl, ir_types::proofs::Growth::grows_trans))]
pub(crate) fn read_opening<'a, O: Outer>(
    alloc: Global,
    ctx: &mut Context,
    outer: &O,
    names: &ScopedNames<'a, ValueGroup>,
    spares: Spares<'a>,
    bytes: &'a [u8],
) -> Result<(Opening<'a>, &'a [u8]), ReadError>
    requires names { spares.names.items ≡ [] }
    requires operands { spares.operands.items ≡ [] }
    ensures reads { Returns (λ x. (opening_view x.0, (x.1.now, ctx.new))) result (opening_at (free_bound (O.types outer.now)) names.now.here (bytes.now, ctx.old)) }
    ensures grows { IsExtendedBy ctx.old ctx.new }
{
    let (preceding, trailing) = match start(alloc, outer, names, spares, bytes) {
        Ok(found) => found,
        Err(e) => return Err(e),
    };
    let name = match steps::name(ctx, preceding.name.as_slice(), trailing) {
        Ok(name) => name,
        Err(e) => return Err(e),
    };
    let isolated = ctx.isolated(name);
    let (written, rest) = match properties(alloc, ctx, trailing) {
        Ok(found) => found,
        Err(e) => return Err(e),
    };
    let opening = Opening {
        preceding,
        name,
        isolated,
        written,
        trailing,
    };
    Ok((opening, rest))
}
