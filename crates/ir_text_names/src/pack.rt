//! The values of a name while a text is parsed.
ghost use Rattle.std.specs.Prelude.{◌≡◌, ◌∷◌, [], length, option_map, slice_get};

use crate::bound::TypedValue;
use std::marker::Model;

/// One value, which is stored without allocating, or several.
#[derive(Drop)]
enum ValueGroupData {
    One(TypedValue),
    Many(Vec<TypedValue>),
}

/// The values of a name, in order. A contract sees them as a list.
#[derive(Drop)]
pub struct ValueGroup {
    held: ValueGroupData,
}

impl Model for ValueGroup {
    ghost use Rattle.std.specs.Prelude.{List};
    ghost use Rattle.ir_text_names.specs.declared.bound.TypedValue.{TypedValue as Value_of};

    ghost Value = { List Value_of };

    ghost use Rattle.ir_text_names.specs.Packs.{held_values};

    ghost view = { λ p. held_values p.held };
}

impl ValueGroup {
    /// Returns a pack of one value.
    pub fn one(value: TypedValue) -> ValueGroup
        ensures { result ≡ value ∷ [] }
    {
        ValueGroup {
            held: ValueGroupData::One(value),
        }
    }

    /// Returns a pack of these values.
    pub fn many(values: Vec<TypedValue>) -> ValueGroup
        ensures { result ≡ values.items }
    {
        ValueGroup {
            held: ValueGroupData::Many(values),
        }
    }

    /// Returns the number of values.
    pub fn len(&self) -> usize
        ensures { result ≡ length self.now }
    {
        match &self.held {
            ValueGroupData::One(_) => 1,
            ValueGroupData::Many(values) => values.len(),
        }
    }

    /// Returns the value at an index.
    pub fn get(&self, place: usize) -> Option<&TypedValue>
        ensures { option_map (λ b. b.now) result ≡ slice_get self.now place }
    {
        match &self.held {
            ValueGroupData::One(value) => { if place == 0 { Some(value) } else { None } }
            ValueGroupData::Many(values) => values.get(place),
        }
    }
}
