//! Queries of the operation table by ids of a context, and the literals of its types.
ghost use Rattle.std.specs.Prelude.{◌≡◌, pos, int_lt, unsigned_abs};
ghost use Rattle.std.specs.Str.{bytes_eq};
ghost use Rattle.ir_types.specs.Things.{IsType};
ghost use Rattle.ir_types.specs.Terms.{name_term, type_term};
ghost use Rattle.ir_types.specs.Ranges.{is_literal};
ghost use Rattle.ir_types.specs.Readings as readings;
ghost use Rattle.ir_types.specs.Readings.{reading_of};
ghost use Rattle.ir_types.specs.WordNames.{word_bytes};
ghost use Rattle.ir_types.specs.Words.{is_listed, is_table, is_isolated, is_inherent};

use crate::context::Context;
use crate::ids::{NameId, TypeId};
use crate::range::is_literal;
use crate::readings::{Reading, literal_bits, read_bits};
use crate::word::{Word, is_word_number};
use crate::words::{inherent_number, isolated_number, listed_number, table_number};

impl Context {
    /// Returns whether a name is that of a registered operation.
    pub fn listed(&self, name: NameId) -> bool
        ensures { result ≡ is_listed (name_term self.now name) }
    {
        self.sound();
        listed_number(name)
    }

    /// Returns whether a name is that of an operation that is isolated from above (Traits, "IsolatedFromAbove").
    pub fn isolated(&self, name: NameId) -> bool
        ensures { result ≡ is_isolated (name_term self.now name) }
    {
        self.sound();
        isolated_number(name)
    }

    /// Returns whether a name is that of an operation with a symbol table (Symbols and Symbol Tables, "Symbol Table").
    pub fn table(&self, name: NameId) -> bool
        ensures { result ≡ is_table (name_term self.now name) }
    {
        self.sound();
        table_number(name)
    }

    /// Returns whether a key is inherent to a registered operation, so that its entry is a property (Language
    /// Reference, "Properties").
    pub fn inherent(&self, op: NameId, key: NameId) -> bool
        ensures { result ≡ is_inherent (name_term self.now op) (name_term self.now key) }
    {
        self.sound();
        inherent_number(op, key)
    }

    /// Returns whether a name is this predefined word. Compares ids.
    pub fn is_word(&self, name: NameId, word: Word) -> bool
        ensures { result ≡ bytes_eq (name_term self.now name) (word_bytes word) }
    {
        self.sound();
        is_word_number(name, word)
    }

    /// Returns whether a literal, given by its sign and magnitude, is in the range of a type: from -2^(w-1) to 2^w - 1
    /// for a signless type of w bits, to 2^(w-1) - 1 for a signed one and for index, which has 64 bits, and from 0 to
    /// 2^w - 1 for an unsigned one. -0 is 0. Other types have no literals.
    pub fn fits(&self, ty: TypeId, negative: bool, magnitude: u128) -> bool
        requires { IsType self.now ty }
        ensures { result ≡ is_literal (type_term self.now ty) negative magnitude }
    {
        self.sound();
        is_literal(self.type_node(ty), negative, magnitude)
    }

    /// Returns the bits of a literal, which are the number modulo 2^w, or `None` if the literal isn't in the range of
    /// the type.
    pub fn literal_bits(&self, ty: TypeId, negative: bool, magnitude: u128) -> Option<u128>
        requires { IsType self.now ty }
        ensures { result ≡ readings.literal_bits (type_term self.now ty) negative magnitude }
    {
        self.sound();
        literal_bits(self.type_node(ty), negative, magnitude)
    }

    /// Returns the number that bits represent: an unsigned number for an unsigned type, two's complement for a signless
    /// or signed type and for index.
    pub fn reading(&self, ty: TypeId, bits: u128) -> Reading
        requires { IsType self.now ty }
        ensures negative { result.negative ≡ int_lt (reading_of (type_term self.now ty) bits) (pos 0) }
        ensures magnitude { result.magnitude ≡ unsigned_abs (reading_of (type_term self.now ty) bits) }
    {
        self.sound();
        read_bits(self.type_node(ty), bits)
    }
}
