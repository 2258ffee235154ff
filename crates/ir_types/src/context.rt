//! The context, which interns names, types and attributes. It only grows.
ghost use Rattle.std.specs.Prelude.{◌≡◌, ◌<◌, ◌≤◌, ◌↔◌, Some, None, Ok, Err, [], true, false, IfOk, IsOk, OnOk, OnErr, IfErr, IsTrue, length, slice_get};
ghost use Rattle.ir_types.specs.Things.{IsName, IsType, IsAttr, IsExtendedBy, TypeIsOf, AttrIsOf};
ghost use Rattle.ir_types.specs.Limits.{most_depth};
ghost use Rattle.ir_types.specs.Interning.{with_name, with_type, with_attr, knows_name, knows_type, knows_attr};
ghost use Rattle.ir_types.specs.Reasons.{IsRefusedFor, checked, name_reason, type_reason, attr_reason, dictionary_reason};
ghost use Rattle.ir_types.specs.Sound.{IsSound, IsKept};
ghost use Rattle.ir_types.specs.Dictionaries.{kept};
ghost use Rattle.ir_types.specs.Depths.{type_depth, attr_depth};
ghost use Rattle.ir_types.specs.Terms.{type_term, attr_term};
ghost use Rattle.ir_types.specs.Words.{words};

use crate::dictionary::sort_entries;
use crate::ids::{AttrId, NameId, TypeId};
use crate::limits::{MOST_ENTRIES, MOST_THINGS};
use crate::node::{AttrNode, TypeNode};
use crate::places::{attrs_apart, intern_attr, intern_name, intern_type, names_apart, types_apart};
use crate::refusal::Refusal;
use crate::words::{WORDS, word};
use indexmap::{IndexMap, IndexSet};
use ir_types_interner::keyed::Keyed;
use ir_types_interner::lists::Items;
use std::alloc::Global;
use std::marker::Model;

/// Names, types and attributes, each with an id.
pub struct Context {
    alloc: Global,
    keyed: Keyed,
    names: IndexSet<Vec<u8>, Keyed>,
    types: IndexMap<TypeNode, u32, Keyed>,
    attrs: IndexMap<AttrNode, u32, Keyed>,
    opaque: bool,
    /// The numbers of recent names, each at the index that `recent_index` returns for it.
    recent: [u32; 16],
}

impl Drop for Context {
    /// Frees the context. It is written out, so that the crates above call one function.
    fn drop(self) {
        let Context {
            alloc: _,
            keyed: _,
            names: _,
            types: _,
            attrs: _,
            opaque: _,
            recent: _,
        } = self;
    }
}

/// Returns the index of a name among the recent names. Names of one text often differ in their last two bytes.
#[inline(always)]
fn recent_index(bytes: &[u8]) -> usize
    ensures { result < 16 }
{
    match bytes {
        [.., one, last] => (*one ^ *last) as usize % 16,
        _ => 0,
    }
}

impl Model for Context {
    ghost use Rattle.std.specs.Prelude.{map};
    ghost use Rattle.ir_types.specs.Things.{ContextModel};

    ghost Value = { ContextModel };

    ghost use Rattle.ir_types.specs.Held.{things_of, IsKeptWithDepths};

    ghost view = { λ c. things_of c.opaque (map (λ v. v.items) c.names.keys) c.types.entries c.attrs.entries };

    ghost invariant = { λ c. IsKeptWithDepths c.opaque (map (λ v. v.items) c.names.keys) c.types.entries c.attrs.entries };
}

impl Context {
    /// Returns a context with the words of the operation table, each at its fixed id, and without types and attributes.
    ///
    /// Refusals: `Memory`.
    pub fn new(alloc: Global) -> Result<Context, Refusal>
        ensures ok { IfOk result (λ c. c ≡ record { names = words; types = []; attrs = []; opaque = false }) }
        ensures refused { IfErr result (λ refusal. refusal ≡ Refusal.Memory) }
    {
        Context::keyed(alloc, 0)
    }

    /// Returns a context with only the words of the operation table, whose hashes use `key`. A text whose names collide
    /// can only be written with knowledge of the key.
    ///
    /// Refusals: `Memory`.
    pub fn keyed(alloc: Global, key: u64) -> Result<Context, Refusal>
        ensures ok { IfOk result (λ c. c ≡ record { names = words; types = []; attrs = []; opaque = false }) }
        ensures refused { IfErr result (λ refusal. refusal ≡ Refusal.Memory) }
    {
        Context::in_mode(alloc, key, false)
    }

    /// Returns a context with only the words of the operation table, whose hashes use `key`. `opaque` says whether
    /// unknown types and attributes are read as opaque ones.
    ///
    /// Refusals: `Memory`.
    pub fn in_mode(alloc: Global, key: u64, opaque: bool) -> Result<Context, Refusal>
        ensures ok { IfOk result (λ c. c ≡ record { names = words; types = []; attrs = []; opaque = opaque }) }
        ensures refused { IfErr result (λ refusal. refusal ≡ Refusal.Memory) }
    {
        let keyed = Keyed::new(key);
        let mut names: IndexSet<Vec<u8>, Keyed> = IndexSet::with_hasher(alloc, keyed);
        for index in 0..WORDS {
            names.insert(Vec::from_slice(alloc, word(index))?)?;
        }
        Ok(Context {
            alloc,
            keyed,
            names,
            types: IndexMap::with_hasher(alloc, keyed),
            attrs: IndexMap::with_hasher(alloc, keyed),
            opaque,
            recent: [0; 16],
        })
    }

    /// Returns whether unknown types and attributes are read as opaque ones.
    pub fn is_opaque(&self) -> bool
        ensures { result ≡ self.now.opaque }
    {
        self.opaque
    }

    /// Returns the hasher of the context.
    pub fn hasher(&self) -> Keyed {
        self.keyed
    }

    /// Returns whether the context has a name with this id.
    pub fn has_name(&self, id: NameId) -> bool
        ensures { IsTrue result ↔ IsName self.now id }
    {
        (id.number() as usize) < self.names.len()
    }

    /// Returns whether the context has a type with this id.
    pub fn has_type(&self, id: TypeId) -> bool
        ensures { IsTrue result ↔ IsType self.now id }
    {
        (id.number() as usize) < self.types.len()
    }

    /// Returns whether the context has an attribute with this id.
    pub fn has_attr(&self, id: AttrId) -> bool
        ensures { IsTrue result ↔ IsAttr self.now id }
    {
        (id.number() as usize) < self.attrs.len()
    }

    /// Returns the bytes of a name.
    pub fn name_bytes(&self, id: NameId) -> &[u8]
        requires { IsName self.now id }
        ensures { slice_get self.now.names id ≡ Some result.now }
    {
        self.names
            .get_index(id.number() as usize)
            .unwrap()
            .as_slice()
    }

    /// Returns the node of a type.
    pub fn type_node(&self, id: TypeId) -> &TypeNode
        requires { IsType self.now id }
        ensures { slice_get self.now.types id ≡ Some result.now }
    {
        let (node, _depth) = self.types.get_index(id.number() as usize).unwrap();
        node
    }

    /// Returns the node of an attribute. The entries of a dictionary are sorted by the bytes of their keys.
    pub fn attr_node(&self, id: AttrId) -> &AttrNode
        requires { IsAttr self.now id }
        ensures node { slice_get self.now.attrs id ≡ Some result.now }
        ensures kept { IsKept self.now.names result.now }
    {
        let (node, _depth) = self.attrs.get_index(id.number() as usize).unwrap();
        node
    }

    /// Returns whether this is the name with this number.
    #[inline(always)]
    fn is_name(&self, number: u32, bytes: &[u8]) -> bool
        ensures { IsTrue result → slice_get self.now.names number ≡ Some bytes.now }
    {
        let id = NameId::new(number);
        if !self.has_name(id) {
            return false;
        }
        self.name_bytes(id) == bytes
    }

    /// Makes a name recent.
    #[inline(always)]
    fn remember(&mut self, index: usize, id: NameId)
        requires { index < 16 }
        ensures { self.new ≡ self.old }
    {
        self.recent[index] = id.number();
    }

    /// Interns a name and returns its id. A known name needs no memory, and a recent one isn't hashed.
    ///
    /// Refusals: `TooMany` if the context is full and has no such name; `Memory`.
    #[tactic(auto, using(crate::proofs::CallNumbers::known_name, crate::proofs::AcceptedCalls::known_name_reason, crate::proofs::Growth::grows_refl))]
    pub fn name(&mut self, bytes: &[u8]) -> Result<NameId, Refusal>
        ensures ok { IfOk result (λ id. (id, self.new) ≡ with_name bytes.now self.old) }
        ensures grows { IsExtendedBy self.old self.new }
        ensures refused { IsRefusedFor (name_reason bytes.now self.old) result }
        ensures known { knows_name bytes.now self.old ≡ true → IsOk result }
        ensures err { OnErr result (self.new ≡ self.old) }
    {
        self.sound();
        let index = recent_index(bytes);
        let number = self.recent[index];
        if self.is_name(number, bytes) {
            return Ok(NameId::new(number));
        }
        match self.hashed_name(bytes) {
            Ok(id) => {
                self.remember(index, id);
                Ok(id)
            }
            Err(refusal) => Err(refusal),
        }
    }

    /// Interns a name, which it looks up by its hash, and returns its id. A known name needs no memory.
    ///
    /// Refusals: `TooMany` if the context is full and has no such name; `Memory`.
    #[inline(never)]
    fn hashed_name(&mut self, bytes: &[u8]) -> Result<NameId, Refusal>
        ensures ok { IfOk result (λ id. (id, self.new) ≡ with_name bytes.now self.old) }
        ensures grows { IsExtendedBy self.old self.new }
        ensures refused { IsRefusedFor (name_reason bytes.now self.old) result }
        ensures known { knows_name bytes.now self.old ≡ true → IsOk result }
        ensures err { OnErr result (self.new ≡ self.old) }
    {
        let place = intern_name(&mut self.names, self.alloc, bytes)?;
        Ok(NameId::new(place))
    }

    /// Interns a type, whose components are types of this context, and returns its id. A known type needs no memory.
    ///
    /// Refusals: `BadWidth` for a width outside 1 to 128; `BadValue` for a dimension above 9,223,372,036,854,775,807;
    /// `TooDeep` beyond a depth of 32; `TooMany` if the context is full and has no such type; `Memory`.
    pub fn ty(&mut self, node: TypeNode) -> Result<TypeId, Refusal>
        requires { TypeIsOf self.old node }
        ensures ok { IfOk result (λ id. (id, self.new) ≡ with_type node self.old) }
        ensures grows { IsExtendedBy self.old self.new }
        ensures refused { IsRefusedFor (type_reason node self.old) result }
        ensures known { knows_type node self.old ≡ true → type_reason node self.old ≡ None → IsOk result }
        ensures err { OnErr result (self.new ≡ self.old) }
    {
        let depth = self.checked_type(&node)?;
        let place = intern_type(&mut self.types, node, depth)?;
        Ok(TypeId::new(place))
    }

    /// Interns an attribute, whose components are names, types and attributes of this context, and returns its id. A
    /// known attribute needs no memory.
    ///
    /// Refusals: `BadValue` if an integer's bits aren't below 2^w, or its type has no integers, or an item of a dense
    /// array is no value of the element type; `TooDeep` beyond a depth of 32; `TooMany` beyond 256 entries, or if the
    /// context is full and has no such attribute; `DuplicateKey` if a key occurs twice; `Memory`.
    pub fn attr(&mut self, node: AttrNode) -> Result<AttrId, Refusal>
        requires { AttrIsOf self.old node }
        ensures ok { IfOk result (λ id. (id, self.new) ≡ with_attr node self.old) }
        ensures grows { IsExtendedBy self.old self.new }
        ensures refused { IsRefusedFor (attr_reason node self.old) result }
        ensures known { knows_attr node self.old ≡ true → attr_reason node self.old ≡ None → IsOk result }
        ensures err { OnErr result (self.new ≡ self.old) }
    {
        let depth = self.checked_attr(&node)?;
        let kept = self.kept(node)?;
        let place = intern_attr(&mut self.attrs, kept, depth)?;
        Ok(AttrId::new(place))
    }

    /// Returns a node as it is stored: the entries of a dictionary are sorted. Needs no memory.
    fn kept(&self, node: AttrNode) -> Result<AttrNode, Refusal>
        requires { AttrIsOf self.now node }
        ensures reason { result ≡ checked (dictionary_reason (length self.now.attrs) node) (kept self.now.names node) }
        ensures kept { IfOk result (λ n. IsKept self.now.names n) }
    {
        let AttrNode::Dict(entries) = node else {
            return Ok(node);
        };
        if entries.len() > MOST_ENTRIES {
            return Err(Refusal::TooMany);
        }
        let mut entries = entries.into_vec();
        if !sort_entries(&self.names, &mut entries) {
            Ok(AttrNode::Dict(Items::new(entries)))
        } else if self.attrs.len() >= MOST_THINGS as usize {
            Err(Refusal::TooMany)
        } else {
            Err(Refusal::DuplicateKey)
        }
    }

    /// Returns the depth of a type of this context.
    pub(crate) fn type_depth(&self, id: TypeId) -> u32
        requires { IsType self.now id }
        ensures depth { result ≡ type_depth (type_term self.now id) }
        ensures shallow { result ≤ most_depth }
    {
        self.types[id.number() as usize]
    }

    /// Returns the depth of an attribute of this context.
    pub(crate) fn attr_depth(&self, id: AttrId) -> u32
        requires { IsAttr self.now id }
        ensures depth { result ≡ attr_depth (attr_term self.now id) }
        ensures shallow { result ≤ most_depth }
    {
        self.attrs[id.number() as usize]
    }

    /// Lemma: the invariants of every context. Its names, types and attributes are distinct, the words come first, a
    /// node refers only to earlier ones, and none has a fault.
    pub fn sound(&self)
        ensures { IsSound self.now }
    {
        names_apart(&self.names);
        types_apart(&self.types);
        attrs_apart(&self.attrs);
    }
}
