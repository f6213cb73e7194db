//! The readers and writers of `std` as sources and sinks.
ghost use Rattle.std.specs.Prelude.{◌≡◌, false};

use crate::device::{DeviceFault, Sink, Source};
use std::io::{Read, Write};

/// A reader or a writer of `std`, and whether it has failed.
#[derive(Debug, Drop)]
pub struct StdDevice<T> {
    device: T,
    failed: bool,
}

/// A reader of `std` as a [`Source`]. Every error of the reader is a fault, even if the read could
/// be tried again.
pub type StdSource<R> = StdDevice<R>;

/// A writer of `std` as a [`Sink`]. Every error of the writer is a fault, and so is a write of some
/// bytes that takes none of them.
pub type StdSink<W> = StdDevice<W>;

impl<T> StdDevice<T> {
    /// Creates a device from a reader or a writer. It has not failed yet.
    pub fn new(device: T) -> StdDevice<T>
        ensures device { result.device ≡ device }
        ensures works { result.failed ≡ false }
    {
        StdDevice {
            device,
            failed: false,
        }
    }

    /// Returns the reader or the writer.
    pub fn into_inner(self) -> T
        ensures { result ≡ self.device }
    {
        self.device
    }
}

impl<R: Read> Source for StdDevice<R> {
    ghost remaining = { λ s. R.remaining s.device };

    ghost has_failed = { λ s. s.failed };

    fn read(&mut self, buf: &mut [u8]) -> Result<usize, DeviceFault> {
        match self.device.read(buf) {
            Ok(n) => Ok(n),
            Err(_) => {
                self.failed = true;
                Err(DeviceFault)
            }
        }
    }
}

impl<W: Write> Sink for StdDevice<W> {
    ghost contents = { λ s. W.contents s.device };

    ghost has_failed = { λ s. s.failed };

    fn write(&mut self, bytes: &[u8]) -> Result<usize, DeviceFault> {
        match self.device.write(bytes) {
            Ok(n) if n > 0 || bytes.is_empty() => Ok(n),
            _ => {
                self.failed = true;
                Err(DeviceFault)
            }
        }
    }
}
