//! The calls of the header. Each takes what its handle holds, has `endpoint` do the work, and puts it back.

pub(crate) mod change;
pub(crate) mod collector;
pub(crate) mod firmware;
pub(crate) mod frame;
pub(crate) mod images;
pub(crate) mod memory;
pub(crate) mod names;
pub(crate) mod profile;
pub(crate) mod queue;
pub(crate) mod reading;
pub(crate) mod receiver;
pub(crate) mod reply;
pub(crate) mod responder;
pub(crate) mod saving;
pub(crate) mod search;
