//! Writes JSON strings and the commas between items.
ghost use Rattle.std.specs.Prelude.{◌≡◌, ◌<◌, ◌++◌, ◌∷◌, [], OnOk};
ghost use Rattle.std.specs.Char.{digit_char};
ghost use Rattle.json.specs.Print.{escape_byte, escape_letter, quoted};
ghost use Rattle.serde_json.specs.Written.{comma_if};

use std::alloc::AllocError;

/// Returns the letter after the backslash that escapes a byte in a string, or 0 if the byte has no such letter.
fn escape_letter(byte: u8) -> u8
    ensures { result ≡ escape_letter byte }
{
    if byte == b'"' || byte == b'\\' {
        return byte;
    }
    match byte {
        8 => b'b',
        12 => b'f',
        10 => b'n',
        13 => b'r',
        9 => b't',
        _ => 0,
    }
}

/// Returns a lowercase hexadecimal digit.
fn hex_digit(n: u8) -> u8
    requires { n < 16 }
    ensures { result ≡ digit_char n }
{
    if n < 10 { b'0' + n } else { b'a' + (n - 10) }
}

/// Appends a byte of a string, escaped if it has to be.
fn write_escaped(out: &mut Vec<u8>, byte: u8) -> Result<(), AllocError>
    ensures { OnOk result (out.new.items ≡ out.old.items ++ escape_byte byte) }
{
    let letter = escape_letter(byte);
    if 0 < letter {
        out.push(b'\\')?;
        out.push(letter)?;
    } else if byte < 32 {
        out.extend_from_slice(b"\\u00")?;
        out.push(hex_digit(byte / 16))?;
        out.push(hex_digit(byte % 16))?;
    } else {
        out.push(byte)?;
    }
    Ok(())
}

/// Appends a text as a JSON string.
pub(crate) fn write_quoted(out: &mut Vec<u8>, text: &[u8]) -> Result<(), AllocError>
    ensures { OnOk result (out.new.items ≡ out.old.items ++ quoted text.now) }
{
    out.push(b'"')?;
    'bytes: for byte in text {
        write_escaped(out, *byte)?;
    }
    out.push(b'"')?;
    Ok(())
}

/// Appends a comma, unless an item is the first.
pub(crate) fn write_comma(out: &mut Vec<u8>, later: bool) -> Result<(), AllocError>
    ensures { OnOk result (out.new.items ≡ out.old.items ++ comma_if later) }
{
    if later {
        out.push(b',')?;
    }
    Ok(())
}

/// Appends the key of a member with its colon, after a comma unless the member is the first.
pub(crate) fn write_key(out: &mut Vec<u8>, later: bool, key: &[u8]) -> Result<(), AllocError>
    ensures { OnOk result (out.new.items ≡ out.old.items ++ (comma_if later ++ (quoted key.now ++ 58 ∷ []))) }
{
    write_comma(out, later)?;
    write_quoted(out, key)?;
    out.push(b':')?;
    Ok(())
}
