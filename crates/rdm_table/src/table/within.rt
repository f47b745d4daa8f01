//! Which values are in the range of a command, and which a GET may reply beside these.

ghost use Rattle.std.specs.Prelude.{◌≡◌, ℕ, List, Ok};
ghost use Rattle.rdm_table.specs.Table.Kinds.{pid_of};
ghost use Rattle.rdm_table.specs.Table.Rows.{row_of, command_in, command_of};
ghost use Rattle.rdm_table.specs.Table.Uses.{in_range_of, told_beside, is_bare, read};
ghost use Rattle.rdm_table.specs.declared.kind.Verb.TheVariants.{Set};

use crate::table::rows;
use crate::{Found, Kind, Verb};
use rdm_device::columns::ranges;
use rdm_device::{Argument, Place};

macro_rules! range_rows {
    (($kind:ident $verb:ident $place:ident $value:ident) $(($name:ident $pid:tt $at:ident $get:tt $set:tt))*) => {
        match $kind {
            $(Kind::$name => match $verb {
                Verb::Get => range_command!($get $place $value),
                Verb::Set => range_command!($set $place $value),
            },)*
        }
    };
}

macro_rules! range_command {
    (none $place:ident $value:ident) => { false };
    ((reads $source:tt) $place:ident $value:ident) => { $value.is_nothing() };
    (($command:ident nothing (any) $($rest:tt)*) $place:ident $value:ident) => { $value.is_nothing() };
    (($command:ident label (any) $($rest:tt)*) $place:ident $value:ident) => { $value.is_label() };
    (($command:ident $form:ident (any) $($rest:tt)*) $place:ident $value:ident) => { $value.$form().is_some() };
    (($command:ident $form:ident ($range:ident $($limit:literal)? $(tells $told:ident)?) $($rest:tt)*) $place:ident $value:ident) => {
        ranges::$range($place, $value $(, $limit)?)
    };
}

/// Whether the value is in range at the device.
#[tactic(auto, unfolding(crate::specs::Table::Rows::row_of, crate::specs::Table::Rows::table))]
pub fn is_in_range(kind: Kind, verb: Verb, place: &Place<'_>, value: &Argument<'_>) -> bool
    ensures { result ≡ in_range_of (command_in (row_of (pid_of kind)) verb) place.now value.now }
{
    rows!(range_rows!(kind verb place value))
}

macro_rules! told_rows {
    (($kind:ident $place:ident $value:ident) $(($name:ident $pid:tt $at:ident $get:tt $set:tt))*) => {
        match $kind {
            $(Kind::$name => told_command!($set $place $value),)*
        }
    };
}

macro_rules! told_command {
    (($command:ident $form:ident ($range:ident $($limit:literal)? tells $told:ident) $($rest:tt)*) $place:ident $value:ident) => {
        ranges::$told($place, $value)
    };
    ($command:tt $place:ident $value:ident) => { false };
}

/// Whether a GET may reply the value at the device, though it isn't in the range of a SET.
#[tactic(auto, unfolding(crate::specs::Table::Rows::row_of, crate::specs::Table::Rows::table))]
pub fn is_told(kind: Kind, place: &Place<'_>, value: &Argument<'_>) -> bool
    ensures { result ≡ told_beside (command_in (row_of (pid_of kind)) Set) place.now value.now }
{
    rows!(told_rows!(kind place value))
}

/// Whether a value that data stand for is in range at the device. Where there are no data, there is nothing to ask.
#[inline(always)]
#[tactic(auto, using(crate::proofs::BareCommands::bare_in_range))]
pub fn is_taken_at(verb: Verb, found: Found, place: &Place<'_>, value: &Argument<'_>) -> bool
    requires bare { found.is_bare ≡ is_bare (command_of (pid_of found.kind) verb) }
    requires read { (bytes : List ℕ) × read (command_of (pid_of found.kind) verb) bytes ≡ Ok value.now }
    ensures { result ≡ in_range_of (command_of (pid_of found.kind) verb) place.now value.now }
{
    if found.is_bare {
        return true;
    }
    is_in_range(found.kind, verb, place, value)
}
