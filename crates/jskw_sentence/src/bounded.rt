//! Pieces of a text that has room for so many characters more. What finds no room is left out, with all
//! that comes behind it, and `..` stands there instead; then there is no room, `None`.
#![tactic(auto, using(crate::proofs::Growth::pieces))]

ghost use Rattle.std.specs.Prelude.{OnOk, string_bytes};
ghost use Rattle.jskw_sentence.specs.Growth.{GrowsWithin};

use std::alloc::AllocError;

// Appends a piece of ASCII, if it finds room.
pub(crate) fn push_piece(
    text: &mut String,
    room: &mut Option<usize>,
    piece: &str,
) -> Result<(), AllocError>
    ensures { OnOk result (GrowsWithin (string_bytes text.old) room.old (string_bytes text.new) room.new) }
{
    match *room {
        None => Ok(()),
        Some(left) if piece.len() <= left => {
            *room = Some(left - piece.len());
            text.push_str(piece)?;
            Ok(())
        }
        Some(_) => cut(text, room),
    }
}

// Appends a character, if it finds room.
pub(crate) fn push_char(
    text: &mut String,
    room: &mut Option<usize>,
    c: char,
) -> Result<(), AllocError>
    ensures { OnOk result (GrowsWithin (string_bytes text.old) room.old (string_bytes text.new) room.new) }
{
    match *room {
        None => Ok(()),
        Some(0) => cut(text, room),
        Some(left) => {
            *room = Some(left - 1);
            text.push(c)?;
            Ok(())
        }
    }
}

// Leaves out all that comes now.
pub(crate) fn cut(text: &mut String, room: &mut Option<usize>) -> Result<(), AllocError>
    ensures { OnOk result (GrowsWithin (string_bytes text.old) room.old (string_bytes text.new) room.new) }
{
    match room.take() {
        None => Ok(()),
        Some(_) => {
            text.push_str("..")?;
            Ok(())
        }
    }
}
