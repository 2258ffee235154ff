//! Lines and columns of a text.
ghost use Rattle.std.specs.Prelude.{◌≡◌};
ghost use Rattle.mlir_work_cli.specs.Positions.{column_from, preceding, indentation, line_at, line_feeds};

use mlir_work_script_base::lines::split_line;

/// Returns the part of a text before a byte.
pub fn preceding(text: &[u8], offset: usize) -> &[u8]
    ensures { result.now ≡ preceding text.now offset }
{
    &text[..offset.min(text.len())]
}

/// Returns a line of a text by its number, from 1, without its line feed. It is empty if there is no such line.
pub fn line_at(text: &[u8], number: usize) -> &[u8]
    ensures { result.now ≡ line_at text.now number }
{
    let mut rest = text;
    let mut left = number;
    'lines: while left > 1 {
        let (_, trailing) = split_line(rest);
        rest = trailing;
        left -= 1;
    }
    let (line, _) = split_line(rest);
    line
}

/// Returns how many spaces, tabs and carriage returns a line begins with.
pub fn indentation(line: &[u8]) -> usize
    ensures { result ≡ indentation line.now }
{
    line.iter()
        .take_while(|byte| **byte == b' ' || **byte == b'\t' || **byte == b'\r')
        .count()
}

/// Returns the number of line feeds of a text.
pub fn line_feeds(text: &[u8]) -> usize
    ensures { result ≡ line_feeds text.now }
{
    text.iter().filter(|byte| **byte == b'\n').count()
}

/// Returns the column that follows a text, from 1. It counts the bytes after the last line feed.
pub fn column_of(text: &[u8]) -> usize
    ensures { result ≡ column_from 1 text.now }
{
    let mut column = 1;
    let mut rest = text;
    'bytes: while let [byte, tail @ ..] = rest {
        column = if *byte == b'\n' { 1 } else { column + 1 };
        rest = tail;
    }
    column
}
