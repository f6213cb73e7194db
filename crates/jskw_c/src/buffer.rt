//! Texts in the buffer of a caller.
ghost use Rattle.std.specs.Prelude.{◌≡◌};
ghost use Rattle.jskw_c.specs.Status as status;
ghost use Rattle.jskw_c.specs.Buffer.{WritesText};

use crate::status::{NO_MEMORY, TOO_SMALL};

// Writes the text to the buffer and returns the status, or returns TOO_SMALL if the text is longer
// than the buffer. Either way `length` becomes the length of the text.
pub(crate) fn write_text(status: u32, text: &[u8], buffer: &mut [u8], length: &mut usize) -> u32
    ensures { WritesText result status text.now buffer.old buffer.new length.new }
{
    let count = text.len();
    *length = count;
    if buffer.len() < count {
        return TOO_SMALL;
    }
    buffer[..count].copy_from_slice(text);
    status
}

// Returns that memory ran out.
pub(crate) fn write_no_memory(length: &mut usize) -> u32
    ensures status { result ≡ status.NO_MEMORY }
    ensures length { length.new ≡ 0 }
{
    *length = 0;
    NO_MEMORY
}
