//! Lists that a parser keeps from one operation for the next.
ghost use Rattle.std.specs.Prelude.{◌≡◌, []};

use crate::bound::TypedValue;
use crate::value_names::ResultName;
use std::alloc::Global;
use std::mem;

/// The lists of an operation that a parsed tree doesn't have. The next operation uses their memory.
#[derive(Drop)]
pub struct Spares<'a> {
    pub names: Vec<ResultName<'a>>,
    pub operands: Vec<TypedValue>,
}

impl<'a> Spares<'a> {
    /// Returns lists without memory.
    pub fn new(alloc: Global) -> Spares<'a> {
        Spares {
            names: Vec::new(alloc),
            operands: Vec::new(alloc),
        }
    }

    /// Returns the lists, emptied. Lists without memory are left.
    pub fn taken(&mut self, alloc: Global) -> Spares<'a>
        ensures names { result.names.items ≡ [] }
        ensures operands { result.operands.items ≡ [] }
    {
        let mut names = mem::replace(&mut self.names, Vec::new(alloc));
        let mut operands = mem::replace(&mut self.operands, Vec::new(alloc));
        names.clear();
        operands.clear();
        Spares { names, operands }
    }
}
