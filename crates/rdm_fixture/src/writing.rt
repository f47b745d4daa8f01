//! The text of a fixture.

ghost use Rattle.std.specs.Prelude.{◌≡◌, ◌↔◌, ℕ, List, Some, Err, IfOk, IfErr, string_bytes};
ghost use Rattle.toml.specs.Data.{table as table_data};
ghost use Rattle.toml.specs.Parse.{parse_document};
ghost use Rattle.toml.specs.View.{table_view};
ghost use Rattle.rdm_fixture.specs.Describes.{Describes};
ghost use Rattle.rdm_fixture.specs.Describable.{CanBeDescribed};
ghost use Rattle.rdm_fixture.specs.Writing.{IsPlain};

mod checks;
mod entries;
mod fields;
mod notices;
mod parameters;
mod rules;
mod sensors;
mod tables;
mod units;

use crate::fixture::Fixture;
use checks::can_be_described;
use std::alloc::Global;
use tables::table_of;
use toml::Table;
use toml::ser::Error;

/// Why a fixture wasn't written.
#[derive(Clone, Copy, Debug, PartialEq, Eq, thiserror::Error)]
pub enum WriteError {
    /// Out of memory for its text.
    #[error("out of memory")]
    OutOfMemory,
    /// No text describes it: its UID is a broadcast (E1.20 section 6.2.4), devices can't be made with its profile, the root has more
    /// than 512 slots besides those that are described, a parameter of the maker's own has limits above one another or has limits
    /// and no numbers (section 10.4.2), a text has a character that isn't printable ASCII, a language isn't two lowercase letters
    /// (section 10.5.7), or a rule can't be in a file: it is of job 0, its outcome isn't one that its parameter can have, or it
    /// fails with what is over (table A-4).
    #[error("no file describes the fixture")]
    Indescribable,
}

impl Fixture {
    /// A text that describes the fixture.
    ///
    /// It is rejected as `Indescribable` exactly when one of the conditions of `CanBeDescribed` fails, and then no text
    /// describes it. Otherwise only memory can be missing.
    pub fn to_toml(&self, alloc: Global) -> Result<String, WriteError>
        ensures ok { IfOk result (λ text. Describes (string_bytes text) self.now) }
        ensures indescribable { (result ≡ Err WriteError.Indescribable) ↔ ¬ CanBeDescribed self.now }
        ensures refused { result ≡ Err WriteError.Indescribable → (text : List ℕ) → ¬ Describes text self.now }
    {
        if !can_be_described(self) {
            return Err(WriteError::Indescribable);
        }
        let Ok(table) = table_of(alloc, self) else {
            return Err(WriteError::OutOfMemory);
        };
        match text_of(alloc, &table) {
            Ok(text) => Ok(text),
            Err(_) => Err(WriteError::OutOfMemory),
        }
    }
}

/// The text of a table with no date-time, nested no deeper than TOML's parser allows: then only memory can be missing.
fn text_of(alloc: Global, table: &Table) -> Result<String, Error>
    requires { IsPlain 5 (table_data (table_view table.now)) }
    ensures reads_back { IfOk result (λ text. parse_document (string_bytes text) ≡ Some (table_view table.now)) }
    ensures memory { IfErr result (λ e. e ≡ Error.OutOfMemory) }
{
    toml::table_to_string(alloc, table)
}
