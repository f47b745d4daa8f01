//! The fields of parameter data.

use rdm_device::Width;
use rdm_standard_names::Table;

/// A field of parameter data, which one word says.
#[derive(Clone, Copy)]
pub enum Field {
    /// A number of so many slots, from 0 on.
    Number(Width),
    /// The same, where those of this table have names.
    Named(Width, Table),
    /// A number of so many slots with a sign, in two's complement.
    Signed(Width),
    /// A number of two slots that everyone writes in four hexadecimal digits: a PID or a status ID.
    Identifier,
    /// A PIN of at most four decimal digits (E1.37-1 LOCK_PIN).
    Pin,
    /// A text of at most so many characters.
    Text(u8),
    /// A language by its two letters (E1.20 section 10.5.8).
    Language,
}

/// A number of one slot.
pub(crate) const BYTE: Field = Field::Number(Width::One);

/// A number of two slots.
pub(crate) const WORD: Field = Field::Number(Width::Two);

/// A number of four slots.
pub(crate) const LONG: Field = Field::Number(Width::Four);
