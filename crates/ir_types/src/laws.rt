//! Theorems about names, types and attributes and their ids.
ghost use Rattle.std.specs.Prelude.{◌≡◌, ℕ, List, slice_get, Some, None};
ghost use Rattle.ir_types.specs.Dictionaries.{kept};
ghost use Rattle.ir_types.specs.Interning.{with_attr, with_name, with_type};
ghost use Rattle.ir_types.specs.Laws.{AttrNodeStays, AttrStays, AttrsDiffer, NameStays, NamesDiffer, OneAttrOneNumber, OneAttrOneMeaning, OneNameOneNumber, OneTypeOneMeaning, OneTypeOneNumber, OrderIsFree, StandsAt, TypeNodeStays, TypeStays, TypesDiffer};
ghost use Rattle.ir_types.specs.Reasons.{attr_reason, name_reason, type_reason};
ghost use Rattle.ir_types.specs.Sound.{Holds, IsSound};
ghost use Rattle.ir_types.specs.Terms.{attr_node_term, attr_term, name_term, type_node_term, type_term};
ghost use Rattle.ir_types.specs.Things.{AttrIsOf, IsExtendedBy, ContextModel, TypeIsOf};
ghost use Rattle.ir_types.specs.declared.node.AttrNode.{AttrNode};
ghost use Rattle.ir_types.specs.declared.node.TypeNode.{TypeNode};

/// A name's id keeps its bytes in every extended context.
pub fn names_stay()
    ensures number { (c d : ContextModel) → IsExtendedBy c d → NameStays c d }
    ensures place { (c d : ContextModel) → IsExtendedBy c d → StandsAt c.names d.names }
{}

/// A type's id keeps its node, and the meaning of the node, in every extended context.
pub fn types_stay()
    ensures number { (c d : ContextModel) → IsExtendedBy c d → TypeStays c d }
    ensures place { (c d : ContextModel) → IsExtendedBy c d → StandsAt c.types d.types }
    ensures node { (c d : ContextModel) → IsExtendedBy c d → TypeNodeStays c d }
{}

/// An attribute's id keeps its node, and the meaning of the node, in every extended context.
pub fn attrs_stay()
    ensures number { (c d : ContextModel) → Holds c → IsExtendedBy c d → AttrStays c d }
    ensures place { (c d : ContextModel) → IsExtendedBy c d → StandsAt c.attrs d.attrs }
    ensures node { (c d : ContextModel) → Holds c → IsExtendedBy c d → AttrNodeStays c d }
{}

/// Names with different ids have different bytes.
pub fn names_differ()
    ensures { (c : ContextModel) → IsSound c → NamesDiffer c }
{}

/// Types with different ids are different types, component by component.
pub fn types_differ()
    ensures { (c : ContextModel) → IsSound c → TypesDiffer c }
{}

/// Attributes with different ids are different attributes, component by component.
pub fn attrs_differ()
    ensures { (c : ContextModel) → IsSound c → AttrsDiffer c }
{}

/// The meaning of a type's id is the meaning of its node.
pub fn type_of_node()
    ensures { (c : ContextModel) (n : ℕ) (node : TypeNode) → Holds c → slice_get c.types n ≡ Some node → type_term c n ≡ type_node_term c node }
{}

/// The meaning of an attribute's id is the meaning of its node.
pub fn attr_of_node()
    ensures { (c : ContextModel) (n : ℕ) (node : AttrNode) → Holds c → slice_get c.attrs n ≡ Some node → attr_term c n ≡ attr_node_term c node }
{}

/// Interning only extends a context.
pub fn calls_grow()
    ensures name { (bytes : List ℕ) (c : ContextModel) → IsExtendedBy c (with_name bytes c).1 }
    ensures ty { (node : TypeNode) (c : ContextModel) → IsExtendedBy c (with_type node c).1 }
    ensures attr { (node : AttrNode) (c : ContextModel) → IsExtendedBy c (with_attr node c).1 }
{}

/// Extension is reflexive and transitive.
pub fn growth_is_an_order()
    ensures reflexive { (c : ContextModel) → IsExtendedBy c c }
    ensures transitive { (b c d : ContextModel) → IsExtendedBy b c → IsExtendedBy c d → IsExtendedBy b d }
{}

/// The returned id means the interned item: the bytes of a name, the meaning of a type's node, the meaning of an
/// attribute's node with the entries of a dictionary sorted.
pub fn new_numbers()
    ensures name { (bytes : List ℕ) (c : ContextModel) → name_term (with_name bytes c).1 (with_name bytes c).0 ≡ bytes }
    ensures ty { (node : TypeNode) (c : ContextModel) → Holds c → type_term (with_type node c).1 (with_type node c).0 ≡ type_node_term c node }
    ensures attr { (node : AttrNode) (c : ContextModel) → Holds c → attr_term (with_attr node c).1 (with_attr node c).0 ≡ attr_node_term c (kept c.names node) }
{}

/// A known name keeps its id, the context is unchanged, and the call isn't refused for a reason.
pub fn known_name()
    ensures answer { (c : ContextModel) (n : ℕ) (bytes : List ℕ) → IsSound c → slice_get c.names n ≡ Some bytes → with_name bytes c ≡ (n, c) }
    ensures fine { (c : ContextModel) (n : ℕ) (bytes : List ℕ) → IsSound c → slice_get c.names n ≡ Some bytes → name_reason bytes c ≡ None }
{}

/// A known type keeps its id, the context is unchanged, and the call isn't refused for a reason.
pub fn known_type()
    ensures answer { (c : ContextModel) (n : ℕ) (node : TypeNode) → IsSound c → slice_get c.types n ≡ Some node → with_type node c ≡ (n, c) }
    ensures fine { (c : ContextModel) (n : ℕ) (node : TypeNode) → IsSound c → slice_get c.types n ≡ Some node → type_reason node c ≡ None }
{}

/// A known attribute keeps its id, the context is unchanged, and the call isn't refused for a reason.
pub fn known_attr()
    ensures answer { (c : ContextModel) (n : ℕ) (node : AttrNode) → IsSound c → slice_get c.attrs n ≡ Some node → with_attr node c ≡ (n, c) }
    ensures fine { (c : ContextModel) (n : ℕ) (node : AttrNode) → IsSound c → slice_get c.attrs n ≡ Some node → attr_reason node c ≡ None }
{}

/// The entries of a known attribute are sorted.
pub fn known_order()
    ensures { (c : ContextModel) (n : ℕ) (node : AttrNode) → Holds c → slice_get c.attrs n ≡ Some node → kept c.names node ≡ node }
{}

/// Two calls, in either order, return the same id for two names exactly if their bytes are equal.
pub fn one_name_one_number()
    ensures { (a b : List ℕ) (c d e : ContextModel) → OneNameOneNumber a c b d e }
{}

/// Two calls, in either order, return the same id for two types exactly if their nodes are equal, and exactly if their
/// meanings are equal.
pub fn one_type_one_number()
    ensures node { (a b : TypeNode) (c d e : ContextModel) → OneTypeOneNumber a c b d e }
    ensures meaning { (a b : TypeNode) (c d e : ContextModel) → OneTypeOneMeaning a c b d e }
{}

/// Two calls, in either order, return the same id for two attributes exactly if their nodes are equal with the entries
/// of dictionaries sorted, and exactly if their meanings are equal.
pub fn one_attr_one_number()
    ensures node { (a b : AttrNode) (c d e : ContextModel) → OneAttrOneNumber a c b d e }
    ensures meaning { (a b : AttrNode) (c d e : ContextModel) → OneAttrOneMeaning a c b d e }
{}

/// The order in which a dictionary's entries are given doesn't matter, if no key occurs twice.
pub fn order_is_free()
    ensures { (c : ContextModel) (xs ys : List (ℕ × ℕ)) → OrderIsFree c xs ys }
{}

/// An accepted call keeps a context sound.
pub fn calls_keep_sound()
    ensures name { (bytes : List ℕ) (c : ContextModel) → IsSound c → name_reason bytes c ≡ None → IsSound (with_name bytes c).1 }
    ensures ty { (node : TypeNode) (c : ContextModel) → IsSound c → TypeIsOf c node → type_reason node c ≡ None → IsSound (with_type node c).1 }
    ensures attr { (node : AttrNode) (c : ContextModel) → IsSound c → AttrIsOf c node → attr_reason node c ≡ None → IsSound (with_attr node c).1 }
{}
