//! What a person changes at the fixture's own menu.

ghost use Rattle.std.specs.Prelude.{◌≡◌, ◌≤◌, ◌↔◌, length, IsSome, IfSome};
ghost use Rattle.rdm_table.specs.Table.Kinds.{pid_of};

use rdm_device::Argument;
use rdm_frame::standard::MOST_TEXT;
use rdm_table::Kind;
use std::marker::Model;

/// The text of a label: at most 32 bytes, of any value. A contract sees the list of them.
#[derive(Clone, Copy, Debug, PartialEq, Eq)]
pub struct Plate {
    /// The text, and 00 after it.
    bytes: [u8; MOST_TEXT],
    len: u8,
}

impl Model for Plate {
    ghost use Rattle.std.specs.Prelude.{ℕ, List, length, take};
    ghost use Rattle.rdm_commands.specs.Views.Plates.{padded, HoldsText, length_again, padded_again};

    ghost Value = { List ℕ };

    ghost view = { λ p. take p.len p.bytes };

    ghost invariant = { λ p. HoldsText p.bytes p.len };

    ghost inverse = { λ text. record { bytes = padded text; len = length text } };

    ghost inverse_ok = { λ p h i. record { bytes = padded_again p.bytes p.len h i; len = length_again p.bytes p.len h i } };
}

impl Plate {
    /// A label with this text, or `None` if it has more than 32 bytes.
    pub fn new(text: &[u8]) -> Option<Self>
        ensures fits { IsSome result ↔ (length text.now ≤ 32) }
        ensures value { IfSome result (λ plate. plate ≡ text.now) }
    {
        if text.len() > MOST_TEXT {
            return None;
        }
        let mut bytes = [0; MOST_TEXT];
        bytes[..text.len()].copy_from_slice(text);
        let len = text.len() as u8;
        Some(Plate { bytes, len })
    }

    /// The text.
    pub fn as_slice(&self) -> &[u8]
        ensures value { result.now ≡ self.now }
        ensures fits { length result.now ≤ 32 }
    {
        &self.bytes[..self.len as usize]
    }
}

/// What a person changes at the menu of the fixture: a parameter of the root device.
#[derive(Clone, Copy, Debug, PartialEq, Eq)]
pub enum Change {
    /// The DMX512 start address (E1.20 section 10.6.3).
    Start(u16),
    /// The current personality, from 1 (section 10.6.1).
    Personality(u8),
    /// The label of the device (section 10.5.5).
    Label(Plate),
}

impl Change {
    ghost use Rattle.rdm_commands.specs.Commands.Panel.{changed_pid, changed_value};

    /// The parameter that is changed.
    pub fn kind(&self) -> Kind
        ensures { pid_of result ≡ changed_pid self.now }
    {
        match self {
            Change::Start(_) => Kind::DmxStartAddress,
            Change::Personality(_) => Kind::DmxPersonality,
            Change::Label(_) => Kind::DeviceLabel,
        }
    }

    /// The value that it gets.
    pub(crate) fn value(&self) -> Argument<'_>
        ensures { result ≡ changed_value self.now }
    {
        match self {
            Change::Start(start) => Argument::from_word(*start),
            Change::Personality(number) => Argument::from_byte(*number),
            Change::Label(plate) => Argument::from_label(plate.as_slice()),
        }
    }
}
