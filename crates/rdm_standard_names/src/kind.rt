//! The kinds of things that the standard has names for.

ghost use Rattle.std.specs.Prelude.{◌≡◌, ◌≤◌, IfSome, Some, option_map};
ghost use Rattle.rdm_standard_names.specs.Names.{are_symbols, greatest_of, name_numbered, names_of, number_named, word_of};
ghost use Rattle.rdm_standard_names.specs.Tables.{rows_of};

use crate::Table;
use crate::products::PRODUCT_CATEGORIES;
use crate::sensors::{SENSOR_TYPES, SENSOR_UNITS, UNIT_PREFIXES};
use crate::slots::{SLOT_LABELS, SLOT_TYPES};

/// A kind of thing that the standard has names for.
#[derive(Clone, Copy, Debug, PartialEq, Eq)]
pub enum NameKind {
    /// What sensors measure (E1.20 table A-12).
    Sensors,
    /// The units of what they measure (table A-13).
    Units,
    /// The prefixes of units (table A-14).
    Prefixes,
    /// Product categories (table A-5).
    Categories,
    /// The types of slots (table C-1).
    Slots,
    /// What primary slots are for, by their label IDs (table C-2).
    Labels,
}

/// The words for the kinds, in the order in which the help has them.
pub const KIND_WORDS: [&str; 6] = [
    "sensors",
    "units",
    "prefixes",
    "categories",
    "slots",
    "labels",
];

impl NameKind {
    /// The table that has the names.
    #[tactic(auto, unfolding(crate::specs::Names::names_of))]
    pub fn table(self) -> Table
        ensures { rows_of result ≡ names_of self }
    {
        match self {
            NameKind::Sensors => SENSOR_TYPES,
            NameKind::Units => SENSOR_UNITS,
            NameKind::Prefixes => UNIT_PREFIXES,
            NameKind::Categories => PRODUCT_CATEGORIES,
            NameKind::Slots => SLOT_TYPES,
            NameKind::Labels => SLOT_LABELS,
        }
    }

    /// The number with this name, or `None` if there is none. Symbols of units and prefixes are read letter for letter, since `m` and `M`
    /// are two prefixes; other names in upper or lower case.
    pub fn number(self, name: &str) -> Option<u32>
        ensures value { result ≡ number_named self name.now }
        ensures within { IfSome result (λ n. n ≤ greatest_of self) }
    {
        if self.are_symbols() {
            self.table().number(name)
        } else {
            self.table().number_like(name)
        }
    }

    /// The name of a number, or `None` if the standard has none for it. It is read as this number.
    pub fn name(self, number: u32) -> Option<&'static str>
        ensures value { option_map (λ name. name.now) result ≡ name_numbered self number }
        ensures read_back { IfSome result (λ name. number_named self name.now ≡ Some number) }
    {
        self.table().name(number)
    }

    /// Whether the names are symbols.
    #[tactic(auto, unfolding(crate::specs::Names::are_symbols))]
    fn are_symbols(self) -> bool
        ensures { result ≡ are_symbols self }
    {
        match self {
            NameKind::Units | NameKind::Prefixes => true,
            NameKind::Sensors | NameKind::Categories | NameKind::Slots | NameKind::Labels => false,
        }
    }

    /// The greatest number of the field that holds one: two bytes for categories and label IDs, one for all others.
    pub fn greatest(self) -> u32
        ensures { result ≡ greatest_of self }
    {
        match self {
            NameKind::Categories | NameKind::Labels => 0xFFFF,
            NameKind::Sensors | NameKind::Units | NameKind::Prefixes | NameKind::Slots => 0xFF,
        }
    }

    /// The word for this kind.
    #[tactic(auto, unfolding(crate::specs::Names::word_of))]
    pub fn word(self) -> &'static str
        ensures { result.now ≡ word_of self }
    {
        match self {
            NameKind::Sensors => "sensors",
            NameKind::Units => "units",
            NameKind::Prefixes => "prefixes",
            NameKind::Categories => "categories",
            NameKind::Slots => "slots",
            NameKind::Labels => "labels",
        }
    }

    /// The kind for which this is the word, or `None` if it is for none.
    #[tactic(auto, unfolding(crate::specs::Names::word_of))]
    pub fn with_word(word: &str) -> Option<NameKind>
        ensures ok { IfSome result (λ kind. word.now ≡ word_of kind) }
        ensures only { (kind : NameKind) → word.now ≡ word_of kind → result ≡ Some kind }
    {
        match word {
            "sensors" => Some(NameKind::Sensors),
            "units" => Some(NameKind::Units),
            "prefixes" => Some(NameKind::Prefixes),
            "categories" => Some(NameKind::Categories),
            "slots" => Some(NameKind::Slots),
            "labels" => Some(NameKind::Labels),
            _ => None,
        }
    }
}
