//! Gives the parser of one operation's text the values of the store's module and its next free id.
use crate::store::Store;
use ir_store_reads::trees::outer::Outer;
use ir_store_reads::trees::value::Value;
use ir_store_reads::types::ids::TypeId;

impl Outer for Store {
    ghost use Rattle.ir_store_reads.specs.tree_laws.Values.{type_of_value};

    ghost types = { λ s v. type_of_value v s.module_of.tree };

    ghost next = { λ s. s.module_of.next };

    fn value_type(&self, value: Value) -> Option<TypeId> {
        Store::value_type(self, value)
    }

    fn next_id(&self) -> u32 {
        Store::next_id(self)
    }
}
