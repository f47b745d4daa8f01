//! The standard streams of the process, which no file takes the place of.

use rdm_host::fault::Fault;
use std::fs::{File, OpenOptions};
use std::io;
use std::os::fd::AsRawFd;
use std::rt::Files;

/// What takes the place of a standard stream that is closed.
const NOTHING: &str = "/dev/null";

/// The descriptor of standard input.
const INPUT: i32 = 0;

/// What holds the descriptors 0, 1 and 2 where they were closed when the program started, so that no file that is opened while this is
/// there gets one of them, and nothing that is meant for a standard stream is read from that file or written to it.
///
/// A closed stream stays of no use: what holds standard input can't be read, and what holds an output can't be written.
#[derive(Drop)]
pub struct Streams {
    _input: Option<File>,
    _outputs: [File; 2],
}

impl Streams {
    /// Holds what is closed. It comes before any file is opened.
    pub fn hold<'a, H: Files<File = File>>(rt: &H) -> Result<Streams, Fault<'a>> {
        match hold(rt) {
            Ok(streams) => Ok(streams),
            Err(error) => Err(Fault::Io(NOTHING, error)),
        }
    }
}

/// A file that is opened gets the lowest descriptor that is closed. So whatever holds standard input comes first, and what is opened
/// next has the descriptors of the outputs that are closed.
fn hold<H: Files<File = File>>(rt: &H) -> io::Result<Streams> {
    let input = closed_input(rt)?;
    let outputs = [nothing_to_read(rt)?, nothing_to_read(rt)?];
    Ok(Streams {
        _input: input,
        _outputs: outputs,
    })
}

/// What holds standard input, if that is closed. Where it is open, the file that looked is closed here, so that it holds no output.
fn closed_input<H: Files<File = File>>(rt: &H) -> io::Result<Option<File>> {
    let first = OpenOptions::new().write(true).open(rt, NOTHING)?;
    if first.as_raw_fd() == INPUT {
        Ok(Some(first))
    } else {
        Ok(None)
    }
}

/// What can be read and not written.
fn nothing_to_read<H: Files<File = File>>(rt: &H) -> io::Result<File> {
    OpenOptions::new().read(true).open(rt, NOTHING)
}
