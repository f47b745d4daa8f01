//! What a fixture tells of itself, field by field.

ghost use Rattle.std.specs.Prelude.{◌≡◌};
ghost use Rattle.rdm_compare.specs.Fields.{a_number, a_text, same_told, told_in};

use crate::Kept;
use rdm_frame::Text;

/// A field of what is kept of a fixture.
#[derive(Clone, Copy, Debug, PartialEq, Eq)]
pub enum Field {
    /// Who made it (E1.20 section 10.5.4).
    Manufacturer,
    /// What it is (section 10.5.3).
    Model,
    /// The device model ID (section 10.5.1).
    ModelId,
    /// What its owner calls it (section 10.5.5).
    Label,
    /// What its software is called (section 10.5.9).
    Software,
    /// The software version ID (section 10.5.1).
    SoftwareId,
    /// The number of its personality (section 10.6.1).
    Personality,
    /// What its personality is called (section 10.6.2).
    PersonalityName,
    /// How many personalities it has (section 10.6.1).
    Personalities,
    /// The DMX512 start address, of the root or of a sub-device (section 10.6.3).
    Address,
    /// How many slots the root takes, or a sub-device (section 10.5.1).
    Footprint,
    /// How many hours it has run (section 10.8.1).
    Hours,
}

/// What a fixture told in a field.
#[derive(Debug, Drop)]
pub enum Told {
    /// A text.
    Text(Text),
    /// A number.
    Number(u32),
}

/// The fields, in the order in which they are compared.
pub(crate) const FIELDS: [Field; 12] = [
    Field::Manufacturer,
    Field::Model,
    Field::ModelId,
    Field::Label,
    Field::Software,
    Field::SoftwareId,
    Field::Personality,
    Field::PersonalityName,
    Field::Personalities,
    Field::Address,
    Field::Footprint,
    Field::Hours,
];

impl Kept {
    /// What the fixture told in a field.
    pub fn told_in(&self, field: Field) -> Option<Told>
        ensures { result ≡ told_in field self.now }
    {
        match field {
            Field::Manufacturer => a_text(&self.manufacturer),
            Field::Model => a_text(&self.model),
            Field::ModelId => a_word(self.model_id),
            Field::Label => a_text(&self.label),
            Field::Software => a_text(&self.software),
            Field::SoftwareId => a_number(self.software_id),
            Field::Personality => a_byte(self.personality),
            Field::PersonalityName => a_text(&self.personality_name),
            Field::Personalities => a_byte(self.personalities),
            Field::Address => a_word(self.address),
            Field::Footprint => a_word(self.footprint),
            Field::Hours => a_number(self.hours),
        }
    }
}

/// A text, if it was told.
fn a_text(text: &Option<Text>) -> Option<Told>
    ensures { result ≡ a_text text.now }
{
    match text {
        Some(text) => Some(Told::Text(text.copy())),
        None => None,
    }
}

/// A number, if it was told.
fn a_number(number: Option<u32>) -> Option<Told>
    ensures { result ≡ a_number number }
{
    match number {
        Some(number) => Some(Told::Number(number)),
        None => None,
    }
}

/// A number of two slots, if it was told.
pub(crate) fn a_word(number: Option<u16>) -> Option<Told>
    ensures { result ≡ a_number number }
{
    match number {
        Some(number) => Some(Told::Number(u32::from(number))),
        None => None,
    }
}

/// A number of one slot, if it was told.
fn a_byte(number: Option<u8>) -> Option<Told>
    ensures { result ≡ a_number number }
{
    match number {
        Some(number) => Some(Told::Number(u32::from(number))),
        None => None,
    }
}

impl Told {
    /// Whether the two are the same.
    pub fn is_same(&self, other: &Told) -> bool
        ensures { result ≡ same_told self.now other.now }
    {
        match (self, other) {
            (Told::Text(a), Told::Text(b)) => a.as_slice() == b.as_slice(),
            (Told::Number(a), Told::Number(b)) => *a == *b,
            (Told::Text(_), Told::Number(_)) | (Told::Number(_), Told::Text(_)) => false,
        }
    }
}
