//! Streams whose errors aren't lost if those who read and write them don't hand them on.

use std::io;
use std::io::{Read, Write};

/// A reader or a writer, and the last error that it had.
#[derive(Drop)]
pub struct Watched<T> {
    stream: T,
    error: Option<io::Error>,
}

impl<T> Watched<T> {
    /// One that has had no error.
    pub fn new(stream: T) -> Watched<T> {
        Watched {
            stream,
            error: None,
        }
    }

    /// The last error. There is none if a writer took no byte.
    pub fn error(&self) -> io::Error {
        match &self.error {
            Some(error) => *error,
            None => io::Error::from(io::ErrorKind::WriteZero),
        }
    }
}

impl<R: Read> Read for Watched<R> {
    ghost remaining = { λ r. R.remaining r.stream };

    fn read(&mut self, buf: &mut [u8]) -> io::Result<usize> {
        let read = self.stream.read(buf);
        if let Err(error) = &read {
            self.error = Some(*error);
        }
        read
    }
}

impl<W: Write> Write for Watched<W> {
    ghost contents = { λ w. W.contents w.stream };

    fn write(&mut self, buf: &[u8]) -> io::Result<usize> {
        let written = self.stream.write(buf);
        if let Err(error) = &written {
            self.error = Some(*error);
        }
        written
    }

    fn flush(&mut self) -> io::Result<()> {
        let flushed = self.stream.flush();
        if let Err(error) = &flushed {
            self.error = Some(*error);
        }
        flushed
    }
}
