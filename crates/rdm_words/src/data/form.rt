//! How parameter data are laid out.

ghost use Rattle.std.specs.Prelude.{◌≡◌};
ghost use Rattle.rdm_words.specs.LaidOut.{fields_of, fits};

use rdm_standard_names::Table;

/// What stands before the words of the data, if their words don't say what they are, and how they are laid out.
#[derive(Clone, Copy)]
pub(crate) struct Layout(pub(crate) &'static str, pub(crate) Form);

/// The layout of parameter data.
#[derive(Clone, Copy)]
pub(crate) enum Form {
    /// No data.
    Nothing,
    /// Data that are shown as they are, whatever their length.
    Shown,
    /// A number of this table, of one slot.
    Code(Table),
    /// A status type (table A-4).
    StatusType,
    /// These fields.
    Fields(Record),
    /// The fields of the first record, of which the second one is said in a picture.
    InShort(Record, Record),
    /// The fields of the first record, or of the first of the others that has as many slots as the data.
    OneOf(Record, Record, Record),
    /// Languages, of two letters each (sections 10.5.7 and 10.5.8).
    Languages,
    /// A list.
    List(List),
}

/// What a list has for entries.
#[derive(Clone, Copy)]
pub(crate) enum List {
    /// Parameters that are supported (section 10.4.1).
    Parameters,
    /// Status messages (section 10.3.2).
    Statuses,
    /// Slots, with their types and label IDs (section 10.6.4).
    Slots,
    /// Slots, with their default values (section 10.6.6).
    SlotDefaults,
}

/// Fields, in the order in which they are said, and how many slots there are.
#[derive(Clone, Copy)]
pub(crate) enum Record {
    /// Exactly this many.
    Exactly(usize, &'static [Field]),
    /// So many, and a text or whatever else fills the rest.
    AtLeast(usize, &'static [Field]),
}

impl Record {
    /// Whether data have its slots.
    pub(crate) fn fits(self, data: &[u8]) -> bool
        ensures { result ≡ fits self data.now }
    {
        match self {
            Record::Exactly(slots, _) => data.len() == slots,
            Record::AtLeast(slots, _) => data.len() >= slots,
        }
    }

    /// Its fields.
    pub(crate) fn fields(self) -> &'static [Field]
        ensures { result.now ≡ fields_of self }
    {
        match self {
            Record::Exactly(_, fields) | Record::AtLeast(_, fields) => fields,
        }
    }
}

/// A field: the words before it, its first slot, how many slots it has, and what they are.
#[derive(Clone, Copy)]
pub(crate) struct Field(
    pub(crate) &'static str,
    pub(crate) u8,
    pub(crate) u8,
    pub(crate) Value,
);

/// How many slots a field has that ends with the data.
pub(crate) const REST: u8 = u8::MAX;

/// What the slots of a field are.
#[derive(Clone, Copy)]
pub(crate) enum Value {
    /// A number that counts.
    Number,
    /// Hexadecimal digits.
    Digits,
    /// A text.
    Text,
    /// A number of this table.
    Code(Table),
    /// A number that counts, behind these words; but those of this table have names.
    Counted(&'static str, Table),
    /// What only some parameters have.
    Other(Meaning),
}

/// What slots are that only some parameters have.
#[derive(Clone, Copy)]
pub(crate) enum Meaning {
    /// A number that measures, with a sign.
    Signed,
    /// A UID.
    Uid,
    /// The number of a parameter.
    Parameter,
    /// A sub-device.
    Place,
    /// A status ID, and what it means (section 10.3.3).
    StatusId,
    /// What a status message tells, but for its sub-device (section 10.3.2).
    Failure,
    /// What a slot is for: its type and its label ID (section 10.6.4).
    SlotUse,
    /// A range of values (section 10.7.1).
    Range,
    /// The unit of what a sensor measures, and its prefix (section 10.7.1).
    Unit,
    /// The number of a sensor that was said, and what it measures now (section 10.7.2).
    Measured,
    /// A scene of DMX_FAIL_MODE or DMX_STARTUP_MODE, of which 0 is no scene, but the level alone (E1.37-1).
    ModeScene,
    /// A control field, and its flags (section 7.6).
    Control,
    /// A time in tenths of a second.
    Tenths,
    /// The same, or without end (E1.37-1).
    Endless,
    /// The least and the greatest such time (E1.37-1 PRESET_INFO).
    Times,
    /// A PIN of four decimal digits (E1.37-1 LOCK_PIN).
    Pin,
    /// What a lock state that was said is called (E1.37-1 LOCK_STATE).
    LockName,
    /// A date and a time of day (section 10.10).
    Clock,
}
