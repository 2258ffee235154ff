//! Checks of the types and attributes that a context accepts, and their depths.
ghost use Rattle.std.specs.Prelude.{◌≡◌, ◌<◌, ◌≤◌, ℕ, List, length, None};
ghost use Rattle.std.specs.List.{All, list_all};
ghost use Rattle.ir_types.specs.Things.{IsType, IsAttr, TypeIsOf, AttrIsOf};
ghost use Rattle.ir_types.specs.Terms.{TypeTerm, type_from, type_terms, attr_terms, types_at, attrs_at, entries_at, type_term, type_node_term, attr_node_term};
ghost use Rattle.ir_types.specs.Depths.{type_depth, types_depth, attr_depth, attrs_depth, entries_depth, is_scalar};
ghost use Rattle.ir_types.specs.Reasons.{checked, type_fault, attr_fault, size_reason, value_reason, is_dimension};
ghost use Rattle.ir_types.specs.Limits.{most_depth};
ghost use Rattle.ir_types.specs.Ranges.{is_value_number};
ghost use Rattle.ir_types.specs.Readings.{is_bits_of};

use crate::context::Context;
use crate::ids::{AttrId, NameId, TypeId};
use crate::limits::{MOST_DEPTH, MOST_DIMENSION, MOST_WIDTH};
use crate::node::{AttrNode, TypeNode};
use crate::range::{is_bits, is_value};
use crate::refusal::Refusal;

impl Context {
    /// Returns the depth of a type's node, or the reason that it is refused.
    pub(crate) fn checked_type(&self, node: &TypeNode) -> Result<u32, Refusal>
        requires { TypeIsOf self.now node.now }
        ensures { result ≡ checked (type_fault (type_node_term self.now node.now)) (type_depth (type_node_term self.now node.now)) }
    {
        if let Some(refusal) = size_fault(node) {
            return Err(refusal);
        }
        let depth = self.type_node_depth(node);
        if depth > MOST_DEPTH {
            return Err(Refusal::TooDeep);
        }
        Ok(depth)
    }

    /// Returns the depth of a type's node.
    fn type_node_depth(&self, node: &TypeNode) -> u32
        requires { TypeIsOf self.now node.now }
        ensures { result ≡ type_depth (type_node_term self.now node.now) }
    {
        match node {
            TypeNode::Int { .. } | TypeNode::Index | TypeNode::Opaque(_) => 1,
            TypeNode::Func { inputs, outputs } => {
                let inputs = self.types_depth(inputs.as_slice());
                let outputs = self.types_depth(outputs.as_slice());
                1 + inputs.max(outputs)
            }
            TypeNode::Memref { elem, .. } => {
                if self.is_scalar(*elem) {
                    1
                } else {
                    1 + self.type_depth(*elem)
                }
            }
        }
    }

    /// Returns whether a type is an integer type, index or opaque.
    fn is_scalar(&self, id: TypeId) -> bool
        requires { IsType self.now id }
        ensures { result ≡ is_scalar (type_term self.now id) }
    {
        self.sound();
        is_scalar_node(self.type_node(id))
    }

    /// Returns the greatest depth of some types, or 0 if there are none.
    fn types_depth(&self, ids: &[TypeId]) -> u32
        requires { All (λ t. t < length self.now.types) ids.now }
        ensures depth { result ≡ types_depth (types_at (type_terms self.now) ids.now) }
        ensures shallow { result ≤ most_depth }
    {
        let mut greatest = 0;
        for id in ids {
            greatest = greatest.max(self.type_depth(*id));
        }
        greatest
    }

    /// Returns the depth of an attribute's node, or the reason that it is refused.
    pub(crate) fn checked_attr(&self, node: &AttrNode) -> Result<u32, Refusal>
        requires { AttrIsOf self.now node.now }
        ensures { result ≡ checked (attr_fault (attr_node_term self.now node.now)) (attr_depth (attr_node_term self.now node.now)) }
    {
        if let Some(refusal) = self.value_fault(node) {
            return Err(refusal);
        }
        let depth = self.attr_node_depth(node);
        if depth > MOST_DEPTH {
            return Err(Refusal::TooDeep);
        }
        Ok(depth)
    }

    /// Returns the depth of an attribute's node.
    fn attr_node_depth(&self, node: &AttrNode) -> u32
        requires { AttrIsOf self.now node.now }
        ensures { result ≡ attr_depth (attr_node_term self.now node.now) }
    {
        match node {
            AttrNode::Ty(ty) => self.type_depth(*ty),
            AttrNode::Opaque { ty, .. } => match ty {
                Some(ty) => self.type_depth(*ty),
                None => 1,
            },
            AttrNode::Array(items) => 1 + self.attrs_depth(items.as_slice()),
            AttrNode::Dict(entries) => 1 + self.entries_depth(entries.as_slice()),
            AttrNode::Int { .. }
            | AttrNode::Str(_)
            | AttrNode::Unit
            | AttrNode::Sym(_)
            | AttrNode::Dense { .. }
            | AttrNode::Overflow { .. } => 1,
        }
    }

    /// Returns the greatest depth of some attributes, or 0 if there are none.
    fn attrs_depth(&self, ids: &[AttrId]) -> u32
        requires { All (λ a. a < length self.now.attrs) ids.now }
        ensures depth { result ≡ attrs_depth (attrs_at (attr_terms self.now) ids.now) }
        ensures shallow { result ≤ most_depth }
    {
        let mut greatest = 0;
        for id in ids {
            greatest = greatest.max(self.attr_depth(*id));
        }
        greatest
    }

    /// Returns the greatest depth of the attributes of some entries, or 0 if there are none.
    fn entries_depth(&self, entries: &[(NameId, AttrId)]) -> u32
        requires { All (λ (e : ℕ × ℕ). e.1 < length self.now.attrs) entries.now }
        ensures depth { result ≡ entries_depth (entries_at self.now.names (attr_terms self.now) entries.now) }
        ensures shallow { result ≤ most_depth }
    {
        let mut greatest = 0;
        for entry in entries {
            greatest = greatest.max(self.attr_depth(entry.1));
        }
        greatest
    }

    /// Returns the reason that an attribute's integers aren't values of their type, or `None`.
    fn value_fault(&self, node: &AttrNode) -> Option<Refusal>
        requires { AttrIsOf self.now node.now }
        ensures { result ≡ value_reason (attr_node_term self.now node.now) }
    {
        let fine = match node {
            AttrNode::Int { ty, value } => self.is_bits(*ty, *value),
            AttrNode::Dense { elem, values } => self.are_values(*elem, values.as_slice()),
            _ => true,
        };
        if fine { None } else { Some(Refusal::BadValue) }
    }

    /// Returns whether a number is the bits of an integer of a type.
    fn is_bits(&self, ty: TypeId, bits: u128) -> bool
        requires { IsType self.now ty }
        ensures { result ≡ is_bits_of (type_term self.now ty) bits }
    {
        self.sound();
        is_bits(self.type_node(ty), bits)
    }

    /// Returns whether an integer is a value of a type in printed form.
    fn is_value(&self, ty: TypeId, value: i128) -> bool
        requires { IsType self.now ty }
        ensures { result ≡ is_value_number (type_term self.now ty) value }
    {
        self.sound();
        is_value(self.type_node(ty), value)
    }

    /// Returns whether some integers are values of a type in printed form.
    fn are_values(&self, ty: TypeId, values: &[i64]) -> bool
        requires { IsType self.now ty }
        ensures { result ≡ list_all (is_value_number (type_term self.now ty)) values.now }
    {
        values
            .iter()
            .all(|value| self.is_value(ty, i128::from(*value)))
    }
}

/// Returns whether a node is an integer type, index or an opaque type.
fn is_scalar_node(node: &TypeNode) -> bool
    ensures { (known : List TypeTerm) → result ≡ is_scalar (type_from known node.now) }
{
    match node {
        TypeNode::Int { .. } => true,
        TypeNode::Index => true,
        TypeNode::Opaque(_) => true,
        TypeNode::Func { .. } => false,
        TypeNode::Memref { .. } => false,
    }
}

/// Returns the reason that a node's width or dimensions are out of range, or `None`.
fn size_fault(node: &TypeNode) -> Option<Refusal>
    ensures { (known : List TypeTerm) → result ≡ size_reason (type_from known node.now) }
{
    match node {
        TypeNode::Int { width, .. } => {
            if (1..=MOST_WIDTH).contains(width) {
                None
            } else {
                Some(Refusal::BadWidth)
            }
        }
        TypeNode::Memref { dims, .. } => {
            if are_dimensions(dims.as_slice()) {
                None
            } else {
                Some(Refusal::BadValue)
            }
        }
        TypeNode::Index | TypeNode::Func { .. } | TypeNode::Opaque(_) => None,
    }
}

/// Returns whether each dimension is within its limit.
fn are_dimensions(dims: &[Option<u64>]) -> bool
    ensures { result ≡ list_all is_dimension dims.now }
{
    dims.iter()
        .all(|dim| dim.is_none_or(|size| size <= MOST_DIMENSION))
}
