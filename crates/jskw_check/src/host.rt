//! The files of the system, and standard output.
ghost use Rattle.std.specs.Prelude.{◌≡◌, None, is_some};

use jskw_documents::{FileSource, Folder, Opened};
use jskw_service::{DeviceFault, Source};
use std::fs::{self, File, OpenFile};
use std::io::{self, ErrorKind, Read, StdinLock, Write};

// The files of the system, by their paths; `-` is standard input.
#[derive(Drop)]
pub(crate) struct HostFolder<'r> {
    pub(crate) rt: &'r HostRuntime,
}

// A file, or standard input.
#[derive(Drop)]
enum Device {
    Standard(StdinLock<'static>),
    File(File),
}

// A file that is read, or standard input.
#[derive(Drop)]
pub(crate) struct Input {
    device: Device,
    // Why a read failed.
    fault: Option<&'static str>,
}

// Standard output.
#[derive(Drop)]
pub(crate) struct Output<'r> {
    pub(crate) rt: &'r HostRuntime,
    // A write found that nobody reads it any more.
    pub(crate) is_closed: bool,
}

impl Write for Output<'_> {
    fn write(&mut self, buf: &[u8]) -> io::Result<usize> {
        match io::writer(self.rt).write(buf) {
            Ok(count) => Ok(count),
            Err(error) => {
                self.is_closed = error.kind() == ErrorKind::BrokenPipe;
                Err(error)
            }
        }
    }

    fn flush(&mut self) -> io::Result<()> {
        Ok(())
    }
}

impl Source for Input {
    // What a file has is not known before it is read.
    ghost remaining = { λ _. None };

    ghost has_failed = { λ i. is_some i.fault };

    fn read(&mut self, buf: &mut [u8]) -> Result<usize, DeviceFault> {
        let count = match &mut self.device {
            Device::Standard(reader) => reader.read(buf),
            Device::File(file) => file.read(buf),
        };
        match count {
            Ok(count) => Ok(count),
            Err(error) => {
                self.fault = Some(why_unread(&error));
                Err(DeviceFault)
            }
        }
    }
}

impl FileSource for Input {
    fn why_failed(&self) -> &'static str {
        self.fault.unwrap_or(UNREAD)
    }
}

impl Input {
    fn new(device: Device) -> Input
        ensures { result.fault ≡ None }
    {
        Input {
            device,
            fault: None,
        }
    }
}

impl Folder for HostFolder<'_> {
    type Reader = Input;

    ghost bytes_of = { λ _ _. None };

    fn open(&self, name: &str) -> Result<Opened<Input>, &'static str> {
        if name == "-" {
            return Ok(Opened {
                reader: Input::new(Device::Standard(self.rt.reader())),
                size: None,
            });
        }
        match opened(self.rt, name) {
            Ok(file) => {
                let size = size_of(&file);
                Ok(Opened {
                    reader: Input::new(Device::File(file)),
                    size,
                })
            }
            Err(why) => Err(why),
        }
    }
}

// Opens a file, or returns why it cannot be read.
fn opened(rt: &HostRuntime, name: &str) -> Result<File, &'static str> {
    let file = match fs::open(rt, name) {
        Ok(file) => file,
        Err(error) => return Err(why_unread(&error)),
    };
    match file.metadata() {
        Ok(metadata) if metadata.is_dir() => Err("it is a folder"),
        _ => Ok(file),
    }
}

// Returns how many bytes a regular file has.
fn size_of(file: &File) -> Option<u64> {
    match file.metadata() {
        Ok(metadata) if metadata.is_file() => Some(metadata.len()),
        _ => None,
    }
}

// Why a file is refused that cannot be opened or read, unless more is known.
const UNREAD: &str = "it cannot be read to its end";

// Returns why a file could not be opened or read.
fn why_unread(error: &io::Error) -> &'static str {
    match error.kind() {
        ErrorKind::NotFound => "there is no such file",
        ErrorKind::IsADirectory => "it is a folder",
        ErrorKind::PermissionDenied => "it may not be read",
        ErrorKind::WouldBlock => "it is non-blocking, and nothing is there to read yet",
        _ => UNREAD,
    }
}
