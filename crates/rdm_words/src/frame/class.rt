//! What a frame does (E1.20 table A-1).

ghost use Rattle.std.specs.Prelude.{◌≡◌, ◌++◌, OnOk, option_map, string_bytes};
ghost use Rattle.rdm_words.specs.HeaderFacts.{class_name};
ghost use Rattle.rdm_words.specs.HeaderWords.{class_words};
ghost use Rattle.rdm_words.specs.Unread.{is_response};

use crate::data::values::put_or;
use rdm_frame::standard::{
    DISCOVERY_COMMAND, DISCOVERY_COMMAND_RESPONSE, GET_COMMAND, GET_COMMAND_RESPONSE, SET_COMMAND,
    SET_COMMAND_RESPONSE,
};
use std::alloc::AllocError;

/// A command class.
#[derive(Clone, Copy)]
pub(crate) enum Class {
    Discovery,
    DiscoveryResponse,
    Get,
    GetResponse,
    Set,
    SetResponse,
}

impl Class {
    /// The command class with this code.
    pub(crate) fn of(code: u8) -> Option<Class> {
        Some(match code {
            DISCOVERY_COMMAND => Class::Discovery,
            DISCOVERY_COMMAND_RESPONSE => Class::DiscoveryResponse,
            GET_COMMAND => Class::Get,
            GET_COMMAND_RESPONSE => Class::GetResponse,
            SET_COMMAND => Class::Set,
            SET_COMMAND_RESPONSE => Class::SetResponse,
            _ => return None,
        })
    }
}

/// The name of the command class with this code.
fn class_name(code: u8) -> Option<&'static str>
    ensures { option_map (λ text. text.now) result ≡ class_name code }
{
    match code {
        DISCOVERY_COMMAND => Some("DISCOVERY"),
        DISCOVERY_COMMAND_RESPONSE => Some("DISCOVERY response"),
        GET_COMMAND => Some("GET"),
        GET_COMMAND_RESPONSE => Some("GET response"),
        SET_COMMAND => Some("SET"),
        SET_COMMAND_RESPONSE => Some("SET response"),
        _ => None,
    }
}

/// Whether the command class with this code is that of a reply.
pub(crate) fn is_response(code: u8) -> bool
    ensures { result ≡ is_response code }
{
    code == DISCOVERY_COMMAND_RESPONSE
        || code == GET_COMMAND_RESPONSE
        || code == SET_COMMAND_RESPONSE
}

/// The name of a command class, or its code if the standard doesn't have it.
#[tactic(auto, unfolding(crate::specs::HeaderWords::class_words))]
pub(crate) fn put_class(text: &mut String, code: u8) -> Result<(), AllocError>
    ensures { OnOk result (string_bytes text.new ≡ string_bytes text.old ++ class_words code) }
{
    put_or(
        text,
        "command class ",
        class_name(code),
        &code.to_be_bytes(),
    )
}
