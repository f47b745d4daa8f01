//! The data of a reply, which may come in parts.

use rdm_collector::{Response, Wire, read_reply};
use std::alloc::{AllocError, Global};

/// The data of the last reply, joined if it came in parts (E1.20 section 6.3.2).
#[derive(Drop)]
pub(crate) struct Parts {
    data: Vec<u8>,
    /// Whether the next reply is a further part.
    goes_on: bool,
}

impl Parts {
    /// Nothing came yet.
    pub(crate) fn new(alloc: Global) -> Parts {
        Parts {
            data: Vec::new(alloc),
            goes_on: false,
        }
    }

    /// Takes a reply, and says whether it is the last part of several.
    pub(crate) fn take(&mut self, reply: &Wire) -> Result<bool, AllocError> {
        let Some(said) = read_reply(reply.as_slice()) else {
            return Ok(false);
        };
        let is_further = self.goes_on;
        if !is_further {
            self.data.clear();
        }
        self.data.extend_from_slice(said.body)?;
        self.goes_on = said.response == Response::AckOverflow;
        Ok(is_further && said.response == Response::Ack)
    }

    /// Takes the data of a message, whole.
    pub(crate) fn hold(&mut self, data: &[u8]) -> Result<(), AllocError> {
        self.data.clear();
        self.data.extend_from_slice(data)
    }

    /// The data.
    pub(crate) fn data(&self) -> &[u8] {
        self.data.as_slice()
    }

    /// The data.
    pub(crate) fn into_data(self) -> Vec<u8> {
        self.data
    }
}
