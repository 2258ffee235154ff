//! Classifies the unsupported MLIR construct at which a text was refused.
ghost use Rattle.std.specs.Prelude.{◌≡◌, ◌≤◌, length};
ghost use Rattle.std.specs.List.{prefix_len};
ghost use Rattle.ir_text_tokens.specs.Bytes.{is_letter, is_word};
ghost use Rattle.mlir_work_notes.specs.Unsupported.{unsupported_at, construct_of, construct_of_byte, construct_of_name, construct_of_word, construct_word};
ghost use Rattle.mlir_work_notes.specs.Unsupported.{has_dot, is_affine, is_between_lines, is_dense, is_float, is_other_type, is_pretty, word_at};

/// An unsupported MLIR construct.
#[derive(Clone, Copy, Debug, PartialEq, Eq)]
pub enum UnsupportedConstruct {
    /// An operation in custom assembly form.
    CustomForm,
    /// An alias.
    Alias,
    /// A location.
    Location,
    /// A floating-point type.
    FloatType,
    /// A tensor type.
    TensorType,
    /// A vector type.
    VectorType,
    /// Another builtin type.
    OtherType,
    /// A dialect type.
    DialectType,
    /// A dialect attribute.
    DialectAttribute,
    /// A floating-point number.
    Float,
    /// An elements attribute.
    ElementsAttribute,
    /// An affine map or integer set.
    Affine,
    /// A symbol between brackets.
    Symbol,
    /// A line end, tab or comment between brackets.
    BetweenLines,
    /// Another word.
    Word,
    /// Anything else.
    Other,
}

impl UnsupportedConstruct {
    /// Returns the word of the construct in a note.
    pub fn word(self) -> &'static [u8]
        ensures { result.now ≡ construct_word self }
    {
        match self {
            UnsupportedConstruct::CustomForm => b"pretty-form",
            UnsupportedConstruct::Alias => b"alias",
            UnsupportedConstruct::Location => b"location",
            UnsupportedConstruct::FloatType => b"float-type",
            UnsupportedConstruct::TensorType => b"tensor-type",
            UnsupportedConstruct::VectorType => b"vector-type",
            UnsupportedConstruct::OtherType => b"other-type",
            UnsupportedConstruct::DialectType => b"dialect-type",
            UnsupportedConstruct::DialectAttribute => b"dialect-attribute",
            UnsupportedConstruct::Float => b"float",
            UnsupportedConstruct::ElementsAttribute => b"dense",
            UnsupportedConstruct::Affine => b"affine",
            UnsupportedConstruct::Symbol => b"symbol",
            UnsupportedConstruct::BetweenLines => b"between-lines",
            UnsupportedConstruct::Word => b"word",
            UnsupportedConstruct::Other => b"other",
        }
    }
}

/// Returns whether a byte may begin a bare identifier.
fn is_letter(byte: u8) -> bool
    ensures { result ≡ is_letter byte }
{
    byte.is_ascii_alphabetic() || byte == b'_'
}

/// Returns whether a byte may be in a bare identifier.
fn is_word(byte: u8) -> bool
    ensures { result ≡ is_word byte }
{
    byte.is_ascii_alphanumeric() || byte == b'_' || byte == b'$' || byte == b'.'
}

/// Returns the length of the bare identifier at the start of a text.
fn word_len(text: &[u8]) -> usize
    ensures len { result ≡ prefix_len is_word text.now }
    ensures within { result ≤ length text.now }
{
    text.iter().take_while(|b| is_word(**b)).count()
}

/// Returns the bare identifier at the start of a text.
fn word_at(text: &[u8]) -> &[u8]
    ensures { result.now ≡ word_at text.now }
{
    let len = word_len(text);
    &text[..len]
}

/// Returns whether a word contains a dot.
fn has_dot(word: &[u8]) -> bool
    ensures { result ≡ has_dot word.now }
{
    word.iter().any(|b| *b == b'.')
}

/// Returns whether a word is a floating-point type.
fn is_float(word: &[u8]) -> bool
    ensures { result ≡ is_float word.now }
{
    word == b"f32".as_slice()
        || word == b"f64".as_slice()
        || word == b"f16".as_slice()
        || word == b"bf16".as_slice()
        || word == b"tf32".as_slice()
        || word == b"f80".as_slice()
        || word == b"f128".as_slice()
        || word.starts_with(b"f8E")
        || word.starts_with(b"f6E")
        || word.starts_with(b"f4E")
}

/// Returns whether a word is another builtin type: `complex`, `tuple` or `none`.
fn is_other_type(word: &[u8]) -> bool
    ensures { result ≡ is_other_type word.now }
{
    word == b"complex".as_slice() || word == b"tuple".as_slice() || word == b"none".as_slice()
}

/// Returns whether a word begins an elements attribute.
fn is_dense(word: &[u8]) -> bool
    ensures { result ≡ is_dense word.now }
{
    word == b"dense".as_slice()
        || word == b"dense_resource".as_slice()
        || word == b"sparse".as_slice()
}

/// Returns whether a word begins an affine map or integer set.
fn is_affine(word: &[u8]) -> bool
    ensures { result ≡ is_affine word.now }
{
    word == b"affine_map".as_slice() || word == b"affine_set".as_slice()
}

/// Returns whether a word is the name of an operation in custom form.
fn is_pretty(word: &[u8]) -> bool
    ensures { result ≡ is_pretty word.now }
{
    has_dot(word) || word == b"module".as_slice()
}

/// Returns the construct of a word.
fn construct_of_word(word: &[u8]) -> UnsupportedConstruct
    ensures { result ≡ construct_of_word word.now }
{
    if word == b"loc".as_slice() {
        return UnsupportedConstruct::Location;
    }
    if is_float(word) {
        return UnsupportedConstruct::FloatType;
    }
    if word == b"tensor".as_slice() {
        return UnsupportedConstruct::TensorType;
    }
    if word == b"vector".as_slice() {
        return UnsupportedConstruct::VectorType;
    }
    if is_other_type(word) {
        return UnsupportedConstruct::OtherType;
    }
    if is_dense(word) {
        return UnsupportedConstruct::ElementsAttribute;
    }
    if is_affine(word) {
        return UnsupportedConstruct::Affine;
    }
    if is_pretty(word) {
        return UnsupportedConstruct::CustomForm;
    }
    UnsupportedConstruct::Word
}

/// Returns the construct of a name after `#` or `!`: an alias, or a dialect's type or attribute.
fn construct_of_name(dialect: UnsupportedConstruct, rest: &[u8]) -> UnsupportedConstruct
    ensures { result ≡ construct_of_name dialect rest.now }
{
    if has_dot(word_at(rest)) {
        dialect
    } else {
        UnsupportedConstruct::Alias
    }
}

/// Returns whether a byte ends a line, begins a comment or is a tab.
fn is_between_lines(byte: u8) -> bool
    ensures { result ≡ is_between_lines byte }
{
    byte == b'\t' || byte == b'\n' || byte == b'\r' || byte == b'/'
}

/// Returns the construct of a text that begins with a byte other than a letter, `#` or `!`.
fn construct_of_byte(byte: u8) -> UnsupportedConstruct
    ensures { result ≡ construct_of_byte byte }
{
    if byte.is_ascii_digit() || byte == b'-' || byte == b'+' {
        return UnsupportedConstruct::Float;
    }
    if byte == b'@' {
        return UnsupportedConstruct::Symbol;
    }
    if is_between_lines(byte) {
        return UnsupportedConstruct::BetweenLines;
    }
    UnsupportedConstruct::Other
}

/// Returns the construct at the start of a text.
fn construct_of(text: &[u8]) -> UnsupportedConstruct
    ensures { result ≡ construct_of text.now }
{
    let [byte, rest @ ..] = text else {
        return UnsupportedConstruct::Other;
    };
    if *byte == b'#' {
        return construct_of_name(UnsupportedConstruct::DialectAttribute, rest);
    }
    if *byte == b'!' {
        return construct_of_name(UnsupportedConstruct::DialectType, rest);
    }
    if is_letter(*byte) {
        return construct_of_word(word_at(text));
    }
    construct_of_byte(*byte)
}

/// Returns the unsupported construct at the byte at which a text was refused.
pub fn unsupported_at(text: &[u8], offset: usize) -> UnsupportedConstruct
    ensures { result ≡ unsupported_at text.now offset }
{
    match text.get(offset..) {
        Some(rest) => construct_of(rest),
        None => UnsupportedConstruct::Other,
    }
}
