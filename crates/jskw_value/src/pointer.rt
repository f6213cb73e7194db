//! JSON pointers (RFC 6901) as text, to which reference tokens are appended.
ghost use Rattle.std.specs.Prelude.{◌≡◌, ◌++◌, OnOk, string_bytes};
ghost use Rattle.std.specs.Char.{encode_utf8};
ghost use Rattle.jskw_value.specs.Pointer.{escape, name_token, index_token};
ghost use Rattle.jskw_value.specs.Text.{AppendsPart};

use std::alloc::AllocError;

/// Appends the reference token of a member: a slash and the name, with `~` written `~0` and `/`
/// written `~1` (RFC 6901, section 3). If memory runs out, `pointer` keeps what it held, and a
/// beginning of the token may follow.
#[tactic(auto, using(crate::proofs::Texts::beginnings))]
pub fn push_name(pointer: &mut String, name: &str) -> Result<(), AllocError>
    ensures appended { OnOk result
        (string_bytes pointer.new ≡ string_bytes pointer.old ++ name_token name.now) }
    ensures kept { AppendsPart (string_bytes pointer.old) (string_bytes pointer.new)
        (name_token name.now) }
{
    pointer.push('/')?;
    push_escaped(pointer, name)
}

/// Appends the reference token of an item: a slash and the index in decimal digits (RFC 6901,
/// section 4). If memory runs out, `pointer` keeps what it held, and a beginning of the token may
/// follow.
#[tactic(auto, using(crate::proofs::Texts::beginnings))]
pub fn push_index(pointer: &mut String, index: usize) -> Result<(), AllocError>
    ensures appended { OnOk result
        (string_bytes pointer.new ≡ string_bytes pointer.old ++ index_token index) }
    ensures kept { AppendsPart (string_bytes pointer.old) (string_bytes pointer.new)
        (index_token index) }
{
    let token = format!(in *pointer.allocator(); "/{index}")?;
    pointer.push_str(token.as_str())
}

// Appends a name, escaped character by character.
#[tactic(auto, using(crate::proofs::Pointers::by_character))]
fn push_escaped(pointer: &mut String, name: &str) -> Result<(), AllocError>
    ensures appended { OnOk result
        (string_bytes pointer.new ≡ string_bytes pointer.old ++ escape name.now) }
    ensures kept { AppendsPart (string_bytes pointer.old) (string_bytes pointer.new)
        (escape name.now) }
{
    for c in name.chars() {
        push_escaped_char(pointer, c)?;
    }
    Ok(())
}

// Appends a character, escaped if it is `~` or `/`.
#[tactic(auto, using(crate::proofs::Texts::beginnings, crate::proofs::Pointers::escape_plain))]
fn push_escaped_char(pointer: &mut String, c: char) -> Result<(), AllocError>
    ensures appended { OnOk result
        (string_bytes pointer.new ≡ string_bytes pointer.old ++ escape (encode_utf8 c)) }
    ensures kept { AppendsPart (string_bytes pointer.old) (string_bytes pointer.new)
        (escape (encode_utf8 c)) }
{
    match c {
        '~' => pointer.push_str("~0"),
        '/' => pointer.push_str("~1"),
        _ => pointer.push(c),
    }
}
