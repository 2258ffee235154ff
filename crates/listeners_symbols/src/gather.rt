//! Gathers the role of an operation from a view, with at most two looks and one for each operand.
ghost use Rattle.std.specs.Prelude.{◌≡◌, ◌≤◌, ◌+◌, ℕ, List, Option, Some, true, IfOk, IfSome, is_some, length, map};
ghost use Rattle.std.specs.Prelude.{option_map};
ghost use Rattle.std.specs.List.{All};
ghost use Rattle.ir_event.specs.types.Things.{IsName, IsType};
ghost use Rattle.ir_event.specs.types.Terms.{TypeTerm, type_term, name_term};
ghost use Rattle.ir_event.specs.tree_laws.Reads.{parent_of};
ghost use Rattle.ir_event.specs.tree_laws.Values.{type_of_value};
ghost use Rattle.listeners_support.specs.Nodes.{node_of};
ghost use Rattle.listeners_support.specs.Stored.{known};
ghost use Rattle.ir_event.specs.Bounds.{operand_count};
ghost use Rattle.ir_event.specs.Modules.{NodeIsOf, module_in};
ghost use Rattle.listeners_symbols.specs.Roles.{call_of as call_from};
ghost use Rattle.listeners_symbols.specs.Listeners.{kept_at};
ghost use Rattle.listeners_symbols.specs.Nameless.{IsNamelessRole};
ghost use Rattle.listeners_symbols.specs.Table.{CallIsOf, IsReadAs, IsRight, call_meaning, head_meaning, tables_for};
ghost use Rattle.listeners_symbols.specs.Table.{tables_in, tree_in};

use crate::boxed::Boxed;
use crate::nameless::names_nothing;
use crate::properties::{callee_of, function_of, is_private, name_of, symbol_of};
use crate::references::references_of;
use crate::role::{Call, Role, Tables};
use crate::roles::Roles;
use ir_event::trees::value::Value;
use ir_event::types::context::Context;
use ir_event::types::ids::{NameId, OpId, TypeId};
use ir_event::view::View;
use listeners_support::node::Node;
use std::alloc::{AllocError, Global};

/// Returns the symbol tables of an operation, given its parent and the parent's role.
fn tables_in(role: &Role, parent: OpId) -> Tables
    ensures { result ≡ tables_in parent role.now }
{
    if role.is_table {
        Tables {
            parent: Some(parent),
            home: Some(parent),
            table: Some(parent),
        }
    } else {
        Tables {
            parent: Some(parent),
            home: None,
            table: role.table,
        }
    }
}

/// Returns the symbol tables of an operation that the view shows, or `None` if the table has no role of its parent.
fn tables_of(roles: &Roles, view: &mut View<'_>, op: OpId, is_table: bool) -> Option<Tables>
    ensures tables { result ≡ tables_for (kept_at roles.now) op is_table (parent_of op (tree_in view.old.world.now)) }
    ensures looks { view.new.looks ≤ view.old.looks + 1 }
    ensures world { view.new.world.now ≡ view.old.world.now }
{
    match view.parent(op) {
        Some(parent) => Some(tables_in(roles.get(parent)?, parent)),
        None => Some(Tables {
            parent: None,
            home: None,
            table: if is_table { Some(op) } else { None },
        }),
    }
}

/// Returns the types of an operation's operands.
fn types_of(alloc: Global, view: &mut View<'_>, values: &[Value]) -> Result<Vec<TypeId>, AllocError>
    ensures types { IfOk result
        (λ v. map Some v.items ≡ map (λ x. type_of_value x (tree_in view.old.world.now)) values.now) }
    ensures known { IfOk result (λ v. All (λ t. IsType view.old.world.now.ctx t) v.items) }
    ensures looks { view.new.looks ≤ view.old.looks + length values.now }
    ensures world { view.new.world.now ≡ view.old.world.now }
{
    let mut types = Vec::with_capacity(alloc, values.len())?;
    for value in values {
        let ty = type_of(view, value)?;
        types.push(ty)?;
    }
    Ok(types)
}

/// Returns the type of a value of the module.
fn type_of(view: &mut View<'_>, value: &Value) -> Result<TypeId, AllocError>
    ensures ty { IfOk result (λ t. type_of_value value.now (tree_in view.old.world.now) ≡ Some t) }
    ensures known { IfOk result (λ t. IsType view.old.world.now.ctx t) }
    ensures looks { view.new.looks ≤ view.old.looks + 1 }
    ensures world { view.new.world.now ≡ view.old.world.now }
{
    view.value_type(*value).ok_or(AllocError)
}

/// Returns the call of an operation to a symbol with these parts.
fn call_with(
    alloc: Global,
    view: &mut View<'_>,
    node: &Node<'_>,
    callee: &[NameId],
) -> Result<Call, AllocError>
    requires node { NodeIsOf view.old.world.now.ctx node.now }
    requires callee { All (IsName view.old.world.now.ctx) callee.now }
    ensures call { IfOk result
        (λ k. call_meaning view.old.world.now.ctx k
        ≡ record {
          callee = map (name_term view.old.world.now.ctx) callee.now;
          inputs = map (λ v. type_of_value v (module_in view.old.world.now).tree) node.now.head.operands;
          outputs = map (type_term view.old.world.now.ctx) node.now.head.results;
        }) }
    ensures known { IfOk result (CallIsOf view.old.world.now.ctx) }
    ensures looks { view.new.looks ≤ view.old.looks + length node.now.head.operands }
    ensures world { view.new.world.now ≡ view.old.world.now }
{
    let callee = Vec::from_slice(alloc, callee)?;
    let outputs = Vec::from_slice(alloc, node.results())?;
    let inputs = types_of(alloc, view, node.operands())?;
    Ok(Call {
        callee,
        inputs,
        outputs,
    })
}

/// Returns the call of an operation, or `None` if it calls no symbol.
fn call_of(
    alloc: Global,
    view: &mut View<'_>,
    node: &Node<'_>,
) -> Result<Option<Boxed<Call>>, AllocError>
    requires { NodeIsOf view.old.world.now.ctx node.now }
    ensures call { IfOk result
        (λ k. option_map (call_meaning view.old.world.now.ctx) k
        ≡ call_from (head_meaning view.old.world.now.ctx node.now.head)
        (map (λ v. type_of_value v (module_in view.old.world.now).tree) node.now.head.operands)) }
    ensures known { IfOk result (λ k. IfSome k (CallIsOf view.old.world.now.ctx)) }
    ensures looks { view.new.looks ≤ view.old.looks + length node.now.head.operands }
    ensures world { view.new.world.now ≡ view.old.world.now }
{
    let Some(callee) = callee_of(view.context(), node) else {
        return Ok(None);
    };
    let call = call_with(alloc, view, node, callee)?;
    Ok(Some(Boxed::new(alloc, call)?))
}

/// Returns the role of an operation that names nothing, given its symbol tables and its call.
fn nameless_role(alloc: Global, tables: &Tables, call: Option<Boxed<Call>>) -> Role
    ensures { IsNamelessRole tables.now call result }
{
    Role {
        parent: tables.parent,
        home: tables.home,
        table: tables.table,
        is_table: false,
        symbol: None,
        name: None,
        is_private: false,
        references: Vec::new(alloc),
        call,
        function: None,
    }
}

/// Returns the role of an operation, given its symbol tables and its call.
fn role_with(
    alloc: Global,
    ctx: &Context,
    node: &Node<'_>,
    tables: &Tables,
    call: Option<Boxed<Call>>,
) -> Result<Role, AllocError>
    requires node { NodeIsOf ctx.now node.now }
    requires call { IfSome call (CallIsOf ctx.now) }
    ensures { IfOk result (λ r. (types : List (Option TypeTerm))
        → option_map (call_meaning ctx.now) call ≡ call_from (head_meaning ctx.now node.now.head) types
        → IsReadAs ctx.now (head_meaning ctx.now node.now.head) types tables.now r) }
{
    if names_nothing(ctx, node) {
        return Ok(nameless_role(alloc, tables, call));
    }
    let references = references_of(alloc, ctx, node)?;
    let function = function_of(alloc, ctx, node)?;
    Ok(Role {
        parent: tables.parent,
        home: tables.home,
        table: tables.table,
        is_table: ctx.table(node.name()),
        symbol: symbol_of(ctx, node),
        name: name_of(ctx, node),
        is_private: is_private(ctx, node),
        references,
        call,
        function,
    })
}

/// Returns the role of an operation that the view shows as `node`. Refuses if memory runs out, or if the table has no
/// role of its parent.
pub(crate) fn gather(
    alloc: Global,
    roles: &Roles,
    view: &mut View<'_>,
    op: OpId,
    node: &Node<'_>,
) -> Result<Role, AllocError>
    requires { option_map node_of (known op view.old.world.now.store) ≡ Some node.now }
    ensures parent { IfOk result
        (λ _. (p : ℕ) → parent_of op (module_in view.old.world.now).tree ≡ Some p
        → is_some (kept_at roles.now p) ≡ true) }
    ensures parents { IfOk result (λ r. IfSome r.parent (λ p. is_some (kept_at roles.now p) ≡ true)) }
    ensures role { IfOk result
        (λ r. IsRight view.old.world.now.ctx (module_in view.old.world.now).tree op (kept_at roles.now) (Some r)) }
    ensures looks { view.new.looks ≤ view.old.looks + (1 + operand_count (known op view.old.world.now.store)) }
    ensures world { view.new.world.now ≡ view.old.world.now }
{
    let is_table = view.context().table(node.name());
    let Some(tables) = tables_of(roles, view, op, is_table) else {
        return Err(AllocError);
    };
    let call = call_of(alloc, view, node)?;
    role_with(alloc, view.context(), node, &tables, call)
}
