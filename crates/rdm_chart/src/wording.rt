//! The words of what is drawn.

use rdm_trace::Line;
use rdm_words::{Before, Known, put_line_words, put_reply_words, put_request_words};
use std::alloc::{AllocError, Global};

/// How the short words of a frame end if its data have no room in one line.
const COUNTED: &str = " slots of data";

/// A line of a trace that is put into words.
#[derive(Clone, Copy)]
pub(crate) struct Saying<'s, 'k> {
    pub(crate) alloc: Global,
    /// What went before the line.
    pub(crate) before: &'s Before,
    pub(crate) line: &'s Line,
    pub(crate) known: &'s Known<'k>,
}

impl Saying<'_, '_> {
    /// What the request of the line says.
    pub(crate) fn request(&self, bytes: &[u8]) -> Result<String, AllocError> {
        let mut words = Vec::new(self.alloc);
        put_request_words(&mut words, bytes, self.known)?;
        self.with_data(String::from_utf8_lossy(self.alloc, words.as_slice())?)
    }

    /// What the reply of the line says.
    pub(crate) fn reply(&self, bytes: &[u8]) -> Result<String, AllocError> {
        let mut words = Vec::new(self.alloc);
        put_reply_words(&mut words, bytes, self.known)?;
        self.with_data(String::from_utf8_lossy(self.alloc, words.as_slice())?)
    }

    /// All that the line says.
    pub(crate) fn line(&self) -> Result<String, AllocError> {
        let mut words = Vec::new(self.alloc);
        put_line_words(&mut words, self.before, self.line, self.known)?;
        String::from_utf8_lossy(self.alloc, words.as_slice())
    }

    /// The short words of a frame. If these only count the data, what the line says of the data takes the place of the count: a label of an
    /// arrow can have more lines than one.
    fn with_data(&self, short: String) -> Result<String, AllocError> {
        let Some((subject, count)) = short.as_str().rsplit_once(": ") else {
            return Ok(short);
        };
        if !count.ends_with(COUNTED) {
            return Ok(short);
        }
        let data = self.data()?;
        if data.is_empty() {
            return Ok(short);
        }
        format!(in self.alloc; "{subject}: {}", data.as_str())
    }

    /// What the line says of the data of its frame by their fields, which stand on lines of their own.
    fn data(&self) -> Result<String, AllocError> {
        let said = self.line()?;
        let mut data = String::new(self.alloc);
        for line in said.as_str().lines() {
            if let Some(fields) = fields_in(line) {
                if !data.is_empty() {
                    data.push_str(", ")?;
                }
                data.push_str(fields)?;
            }
        }
        Ok(data)
    }
}

/// The fields of data that stand in a line of words, which is indented then. The digits of the data, and a fault, are no fields.
fn fields_in(line: &str) -> Option<&str> {
    let fields = line.strip_prefix("  ")?;
    if fields.starts_with("data ") || fields.starts_with("fault: ") {
        return None;
    }
    Some(fields)
}
