//! The users of an operation's result, and the fold of an operation.
ghost use Rattle.std.specs.Prelude.{◌≡◌, ◌≤◌, ◌+◌, length, IfOk};
ghost use Rattle.dialects_int.specs.Folds.{known_of};
ghost use Rattle.constants.specs.Facts.{value};
ghost use Rattle.constants.specs.Trails.{IsThere};
ghost use Rattle.constants.specs.Phases.{AreUsers};
ghost use Rattle.constants.specs.Tables.{known_in, look_in, uses_in, users_of};

use crate::packed::PackedBits;
use crate::table::value_facts;
use dialects_int::fold::fold;
use ir_event::store::uses::UsesOf;
use ir_event::trees::value::Value;
use ir_event::types::bits::Bits;
use ir_event::types::ids::OpId;
use ir_event::view::View;
use listeners_support::IdMap;
use std::alloc::{AllocError, Global};

/// Returns the uses of an operation's first result.
pub(crate) fn uses_of<'a>(view: &mut View<'a>, op: OpId) -> UsesOf<'a>
    ensures users { AreUsers (look_in view.old.world.now) op (users_of result) }
    ensures count { length result ≤ uses_in view.old.world.now op }
    ensures looks { view.new.looks ≤ view.old.looks + (1 + uses_in view.old.world.now op) }
    ensures world { view.new.world.now ≡ view.old.world.now }
{
    view.uses(Value::Result(op, 0))
}

/// Returns the fold of an operation that the view shows, given the known values of the table.
pub(crate) fn folded(
    alloc: Global,
    view: &mut View<'_>,
    table: &IdMap<PackedBits>,
    op: OpId,
) -> Result<Option<Bits>, AllocError>
    ensures value { IfOk result
        (λ r. IsThere (look_in view.old.world.now) op
        → known_of r ≡ value (look_in view.old.world.now) (known_in table.now) op) }
    ensures looks { view.new.looks ≤ view.old.looks + 1 }
    ensures world { view.new.world.now ≡ view.old.world.now }
{
    let Some(node) = view.node(op) else {
        return Ok(None);
    };
    let operands = value_facts(alloc, table, node.operands())?;
    Ok(fold(
        view.context(),
        node.name(),
        node.properties(),
        &operands,
        node.results(),
    ))
}
