//! A message that is handed on.

use crate::MessageView;
use std::marker::Model;

/// A message that a device sent, whole, as a console hands it on.
#[derive(Debug, Drop)]
pub struct Letter<'a> {
    /// The message, with the data of all its parts.
    pub message: MessageView<'a>,
    /// Whether its end was asked for again, so that it may have been fetched before (E1.20 section 10.3.1).
    pub again: bool,
    /// Whether each poll for its parts was answered, so that none is missing.
    pub is_whole: bool,
    /// Whether it came in parts (section 6.3.2).
    pub in_parts: bool,
}

impl<'a> Model for Letter<'a> {
    ghost use Rattle.rdm_console.specs.Mailboxes.{Post};

    ghost Value = { Post };

    ghost view = { λ l. record {
      told = l.message;
      again = l.again;
      sure = l.is_whole;
      in_parts = l.in_parts;
    } };
}
