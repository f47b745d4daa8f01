//! How a request is answered.

ghost use Rattle.std.specs.Prelude.{◌≡◌, option_map};
ghost use Rattle.rdm_frame.specs.Names.{name_in};
ghost use Rattle.rdm_words.specs.Tables.{later_reasons, nack_reason, reply_type_name};

use rdm_frame::standard::{ACK, ACK_OVERFLOW, ACK_TIMER, NACK_REASON};
use rdm_params::reason_name;

/// A response type, as `ACK_TIMER` (table A-2).
pub fn reply_type_name(code: u8) -> Option<&'static str>
    ensures { option_map (λ text. text.now) result ≡ reply_type_name code }
{
    match code {
        ACK => Some("ACK"),
        ACK_TIMER => Some("ACK_TIMER"),
        NACK_REASON => Some("NACK_REASON"),
        ACK_OVERFLOW => Some("ACK_OVERFLOW"),
        _ => None,
    }
}

/// Why a request isn't done, as `data out of range`: a reason of E1.20 or of E1.37-2, E1.37-7 and E1.33, which came later.
#[tactic(auto, unfolding(crate::specs::Tables::nack_reason))]
pub fn nack_reason(code: u16) -> Option<&'static str>
    ensures { option_map (λ text. text.now) result ≡ nack_reason code }
{
    match reason_name(code) {
        Some(name) => Some(name),
        None => later_reason(code),
    }
}

/// A reason of the later standards.
fn later_reason(code: u16) -> Option<&'static str>
    ensures { option_map (λ text. text.now) result ≡ name_in later_reasons code }
{
    match code {
        0x000B => Some("action not supported"),
        0x000C => Some("endpoint number invalid"),
        0x000D => Some("invalid endpoint mode"),
        0x000E => Some("unknown UID"),
        0x000F => Some("unknown scope"),
        0x0010 => Some("invalid static config type"),
        0x0011 => Some("invalid IPv4 address"),
        0x0012 => Some("invalid IPv6 address"),
        0x0013 => Some("invalid port"),
        _ => None,
    }
}
