//! Reads all bytes of a source, and writes all of some bytes to a sink.
ghost use Rattle.std.specs.Prelude.{◌≡◌, ℕ, false, true, take, is_err, OnOk, OnErr};
ghost use Rattle.std.specs.Prelude.{IfOk, IsErrOf};
ghost use Rattle.std.specs.Io.KnownBytes.{Consumes, Appends, IsAtEnd};
ghost use Rattle.jskw_service.specs.declared.io.SourceFault.TheVariants.{Memory, Device};

use crate::device::{DeviceFault, Sink, Source};
use std::alloc::{AllocError, Global};

// The number of bytes that one read can return at most.
const BLOCK: usize = 65536;

/// Why reading stopped before the end.
#[derive(Clone, Copy, Debug, PartialEq, Eq)]
pub enum SourceFault {
    /// Memory ran out.
    Memory,
    /// The device failed.
    Device,
}

impl From<AllocError> for SourceFault {
    ghost from_gives = { λ _ e. e ≡ Memory };

    fn from(_e: AllocError) -> SourceFault {
        SourceFault::Memory
    }
}

impl From<DeviceFault> for SourceFault {
    ghost from_gives = { λ _ e. e ≡ Device };

    fn from(_e: DeviceFault) -> SourceFault {
        SourceFault::Device
    }
}

/// Reads to the end. The reader may not have failed before the call.
///
/// # Errors
///
/// Fails if the reader does, or if memory runs out.
// Not inlined: the block would stay on the stack while the request is answered.
#[inline(never)]
pub fn read_all<R: Source>(alloc: Global, reader: &mut R) -> Result<Vec<u8>, SourceFault>
    requires { R.has_failed reader.old ≡ false }
    ensures bytes { IfOk result
        (λ input. Consumes (R.remaining reader.old) (R.remaining reader.new) input.items) }
    ensures whole { OnOk result (IsAtEnd (R.remaining reader.new)) }
    ensures works { OnOk result (R.has_failed reader.new ≡ false) }
    ensures memory { IsErrOf result SourceFault.Memory → R.has_failed reader.new ≡ false }
    ensures device { IsErrOf result SourceFault.Device → R.has_failed reader.new ≡ true }
{
    let mut input = Vec::new(alloc);
    let mut block = [0u8; BLOCK];
    loop {
        let n = reader.read(&mut block)?;
        if n == 0 {
            return Ok(input);
        }
        input.extend_from_slice(&block[..n])?;
    }
}

/// Writes the bytes, in as many writes as it takes. The writer may not have failed before the call.
///
/// # Errors
///
/// Fails if the writer does; a beginning of the bytes is written then, possibly nothing.
pub fn write_all<W: Sink>(writer: &mut W, bytes: &[u8]) -> Result<(), DeviceFault>
    requires { W.has_failed writer.old ≡ false }
    ensures ok { OnOk result (Appends (W.contents writer.old) (W.contents writer.new) bytes.now) }
    ensures err { OnErr result
        ((n : ℕ) × Appends (W.contents writer.old) (W.contents writer.new) (take n bytes.now)) }
    ensures failed { W.has_failed writer.new ≡ is_err result }
{
    let mut done = 0;
    while done < bytes.len() {
        done += writer.write(&bytes[done..])?;
    }
    Ok(())
}
