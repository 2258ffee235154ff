//! A sum over all reads of a module.
use ir_store::node::Node;
use ir_store::store::Store;
use ir_store::uses::UsesOf;
use ir_tree::place::{Part, Place};
use ir_tree::value::Value;
use ir_types::context::Context;
use ir_types::ids::{AttrId, NameId, OpId, TypeId};

/// The keys whose slots are read.
const KEYS: [u32; 4] = [39, 40, 54, 55];

/// What is added for a read that finds nothing.
const NOTHING: u64 = u64::MAX;

/// Adds a number, as the hash function FNV-1a does with bytes.
fn add(sum: &mut u64, number: u64) {
    *sum = (*sum ^ number).wrapping_mul(1_099_511_628_211);
}

/// Adds an optional operation.
fn add_some(sum: &mut u64, op: Option<OpId>) {
    match op {
        Some(op) => add(sum, u64::from(op.number())),
        None => add(sum, NOTHING),
    }
}

/// Adds an optional place.
fn add_place(sum: &mut u64, place: Option<Place>) {
    match place {
        Some(place) => {
            add(sum, u64::from(place.parent.number()));
            add(sum, u64::from(place.region));
            add_some(sum, place.before);
        }
        None => add(sum, NOTHING),
    }
}

/// Adds the place and the neighbours of an operation.
fn add_stand(sum: &mut u64, store: &Store, op: OpId) {
    add(sum, u64::from(store.in_tree(op)));
    add_place(sum, store.place(op));
    add_some(sum, store.parent(op));
    add_some(sum, store.next(op));
    add_some(sum, store.prev(op));
}

/// Adds the ends of the first three blocks of an operation.
fn add_ends(sum: &mut u64, store: &Store, op: OpId) {
    for region in 0..3u32 {
        add_some(sum, store.first(op, region));
        add_some(sum, store.last(op, region));
    }
}

fn add_types(sum: &mut u64, types: &[TypeId]) {
    add(sum, types.len() as u64);
    for ty in types {
        add(sum, u64::from(ty.number()));
    }
}

fn add_arguments(sum: &mut u64, arguments: Option<&[TypeId]>) {
    match arguments {
        Some(types) => add_types(sum, types),
        None => add(sum, NOTHING),
    }
}

fn add_value(sum: &mut u64, value: &Value) {
    match value {
        Value::Result(op, place) => {
            add(sum, u64::from(op.number()));
            add(sum, u64::from(*place));
        }
        Value::Arg(op, region, place) => {
            add(sum, u64::from(op.number()));
            add(sum, u64::from(*region));
            add(sum, u64::from(*place));
        }
    }
}

fn add_values(sum: &mut u64, values: &[Value]) {
    add(sum, values.len() as u64);
    for value in values {
        add_value(sum, value);
    }
}

fn add_entries(sum: &mut u64, entries: &[(NameId, AttrId)]) {
    add(sum, entries.len() as u64);
    for entry in entries {
        add(sum, u64::from(entry.0.number()));
        add(sum, u64::from(entry.1.number()));
    }
}

/// Adds an operation without the operations in its blocks.
fn add_node(sum: &mut u64, node: &Node<'_>) {
    add(sum, u64::from(node.name().number()));
    add_values(sum, node.operands());
    add_types(sum, node.results());
    add_entries(sum, node.properties());
    add_entries(sum, node.attributes());
    add(sum, node.region_count() as u64);
    for region in 0..3u32 {
        add_arguments(sum, node.arguments(region as usize));
    }
}

fn add_known(sum: &mut u64, store: &Store, op: OpId) {
    match store.node(op) {
        Some(node) => add_node(sum, &node),
        None => add(sum, NOTHING),
    }
}

/// Adds whether keys have slots.
fn add_slots(sum: &mut u64, store: &Store, op: OpId) {
    for key in KEYS {
        add(
            sum,
            u64::from(store.has_slot(op, Part::Props, NameId::new(key))),
        );
        add(
            sum,
            u64::from(store.has_slot(op, Part::Attrs, NameId::new(key))),
        );
    }
}

/// Returns a sum over uses that doesn't depend on their order.
fn sum_of_uses(uses: UsesOf<'_>) -> u64 {
    let mut sum: u64 = 0;
    for (op, operand) in uses {
        let one = u64::from(op.number())
            .wrapping_mul(256)
            .wrapping_add(u64::from(operand));
        sum = sum.wrapping_add(one.wrapping_mul(one));
    }
    sum
}

/// Adds the type of a value, and its uses.
fn add_value_reads(sum: &mut u64, store: &Store, value: &Value) {
    match store.value_type(*value) {
        Some(ty) => add(sum, u64::from(ty.number())),
        None => add(sum, NOTHING),
    }
    let uses = store.uses(*value);
    add(sum, uses.len() as u64);
    add(sum, sum_of_uses(uses));
}

/// Adds the reads of an operation's values.
fn add_values_of(sum: &mut u64, store: &Store, op: OpId) {
    for place in 0..2u32 {
        add_value_reads(sum, store, &Value::Result(op, place));
        add_value_reads(sum, store, &Value::Arg(op, 0, place));
        add_value_reads(sum, store, &Value::Arg(op, 1, place));
    }
}

/// Adds the reads that take two operations.
fn add_pair(sum: &mut u64, ctx: &Context, store: &Store, op: OpId, other: OpId) {
    add(sum, u64::from(store.is_before(op, other)));
    add(sum, u64::from(store.precedes(op, other)));
    add(
        sum,
        u64::from(store.visible(ctx, op, Value::Result(other, 0))),
    );
    add(
        sum,
        u64::from(store.visible(ctx, op, Value::Arg(other, 0, 0))),
    );
}

/// Adds all reads of an operation.
fn add_op(sum: &mut u64, ctx: &Context, store: &Store, op: OpId) {
    add_stand(sum, store, op);
    add_ends(sum, store, op);
    add_known(sum, store, op);
    add_slots(sum, store, op);
    add_values_of(sum, store, op);
    for other in 0..store.next_id() {
        add_pair(sum, ctx, store, op, OpId::new(other));
    }
}

/// Returns a sum over bytes and all reads of a module, also those of an operation that isn't in the module.
pub fn sum_of(ctx: &Context, store: &Store, bytes: &[u8]) -> u64 {
    let mut sum: u64 = 0;
    for byte in bytes {
        add(&mut sum, u64::from(*byte));
    }
    add(&mut sum, u64::from(store.next_id()));
    add(&mut sum, store.op_count());
    for op in 0..store.next_id().saturating_add(1) {
        add_op(&mut sum, ctx, store, OpId::new(op));
    }
    sum
}
