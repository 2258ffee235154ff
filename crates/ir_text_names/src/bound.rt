//! The values of names while a text is parsed.
use ir_tree::value::Value;
use ir_types::ids::TypeId;

/// A value and its type.
#[derive(Clone, Copy)]
pub struct TypedValue {
    pub value: Value,
    pub ty: TypeId,
}
