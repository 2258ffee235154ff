//! The module next to which a tree is read.
ghost use Rattle.std.specs.Prelude.{◌≡◌, ℕ, Option};
ghost use Rattle.ir_tree.specs.declared.value.Value.{Value as TreeValue};

use crate::value::Value;
use ir_types::ids::TypeId;

/// The module around a tree that is read alone. The tree may use the module's values, and its new operations are
/// numbered from the module's next id.
pub trait Outer {
    /// The types of the module's values.
    ghost types: { Self → TreeValue → Option ℕ };

    /// The module's next free id.
    ghost next: { Self → ℕ };

    /// Returns the type of a value of the module, or `None` if the module has no such value.
    fn value_type(&self, value: Value) -> Option<TypeId>
        ensures { result ≡ types self.now value };

    /// Returns the next free id of the module.
    fn next_id(&self) -> u32
        ensures { result ≡ next self.now };
}
