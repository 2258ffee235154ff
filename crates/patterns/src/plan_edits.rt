//! The edits of a plan.
use ir_event::trees::value::Value;
use ir_event::types::ids::{AttrId, NameId, TypeId};
use patterns_lowering::edit::Edit;

/// The edits of a plan. Those of the most frequent plans aren't in a list, which takes memory.
#[derive(Drop)]
pub enum PlanEdits {
    /// The site's operation is erased.
    Erase,
    /// A value replaces the result of the site's operation, which is erased.
    Give(Value),
    /// A constant with an interned attribute is inserted at the site. Its result replaces the result of the site's
    /// operation, which is erased.
    Constant {
        /// The type.
        ty: TypeId,
        /// The attribute.
        value: AttrId,
    },
    /// An operation with one operand is inserted at the site. Its result replaces the result of the site's operation,
    /// which is erased.
    Cast {
        /// The name.
        name: NameId,
        /// The type of the result.
        ty: TypeId,
        /// The operand.
        value: Value,
    },
    /// These edits.
    List(Vec<Edit>),
}
