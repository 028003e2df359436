//! Files that are no standard stream, and standard streams that are closed.
ghost use Rattle.std.specs.Prelude.{◌<ℤ◌, pos, IfOk};
ghost use Rattle.std.specs.Fd.{file_raw_fd};

use std::fs::{File, OpenFile, OpenOptions};
use std::io;
use std::os::fd::AsRawFd;
use std::rt::Files;

// The number of standard input, and the last number of a standard stream.
const INPUT: i32 = 0;

const LAST_STREAM: i32 = 2;

// What a closed standard stream is held by.
const NULL_DEVICE: &str = "/dev/null";

/// Opens a file that is none of the standard streams, so that what is printed never goes there. It is refused where one of these
/// is closed, and the file would get its number.
pub fn open_apart<R: Files<File = File>>(
    rt: &R,
    options: &OpenOptions,
    path: &str,
) -> io::Result<File>
    ensures apart { IfOk result (λ file. pos 2 <ℤ file_raw_fd file) }
{
    let file = options.open(rt, path)?;
    if file.as_raw_fd() <= LAST_STREAM {
        return Err(io::Error::from(io::ErrorKind::Other));
    }
    Ok(file)
}

/// Standard streams that were closed when the program began, held by the null device: no file that is opened gets their numbers
/// until this is dropped. Reading of them and writing to them fails.
#[derive(Drop)]
pub struct HeldStreams {
    _input: Option<File>,
    _output: Option<File>,
    _errors: Option<File>,
}

/// Holds the standard streams that are closed. Nothing may have been opened before. Where the null device can't be opened they
/// stay closed, and `open_apart` refuses.
pub fn hold_streams<R: Files<File = File>>(rt: &R) -> HeldStreams {
    // A file that is opened gets the lowest number that is free.
    let input = null_device(rt, OpenOptions::new().write(true), INPUT);
    let output = null_device(rt, OpenOptions::new().read(true), LAST_STREAM);
    let errors = null_device(rt, OpenOptions::new().read(true), LAST_STREAM);
    HeldStreams {
        _input: input,
        _output: output,
        _errors: errors,
    }
}

// The null device, if it gets no higher number.
fn null_device<R: Files<File = File>>(rt: &R, options: &OpenOptions, last: i32) -> Option<File> {
    match options.open(rt, NULL_DEVICE) {
        Ok(file) if file.as_raw_fd() <= last => Some(file),
        _ => None,
    }
}
