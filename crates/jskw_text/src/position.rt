//! Lines and columns of a text.
ghost use Rattle.std.specs.Prelude.{◌≡◌, min, length};
ghost use Rattle.jskw_text.specs.Position.{IsPlaceIn, continues, line_at, column_at};

/// A place in a text, as editors show it.
#[derive(Clone, Copy, Debug, PartialEq, Eq)]
pub struct Position {
    /// The offset, in bytes.
    pub offset: usize,
    /// The line, from 1 on.
    pub line: usize,
    /// The column in its line, in characters, from 1 on.
    pub column: usize,
}

/// Returns the place of the byte at `offset`, or of the end of the text if this is shorter. Lines end
/// with a line feed. Bytes that continue a character of UTF-8 are not counted.
pub fn position_of(text: &[u8], offset: usize) -> Position
    ensures offset { result.offset ≡ min offset (length text.now) }
    ensures line { result.line ≡ line_at offset text.now }
    ensures column { result.column ≡ column_at offset text.now }
{
    let offset = offset.min(text.len());
    let (mut line, mut column) = (1, 1);
    for &byte in &text[..offset] {
        if byte == b'\n' {
            line += 1;
            column = 1;
        } else if !is_inner(byte) {
            column += 1;
        }
    }
    Position {
        offset,
        line,
        column,
    }
}

// Returns the same of a text.
#[tactic(auto, using(crate::proofs::Places::is_place))]
pub(crate) fn place_in(text: &str, offset: usize) -> Position
    ensures { IsPlaceIn text.now result }
{
    position_of(text.as_bytes(), offset)
}

// Returns whether the byte continues a character of UTF-8.
fn is_inner(byte: u8) -> bool
    ensures { result ≡ continues byte }
{
    128 <= byte && byte < 192
}
