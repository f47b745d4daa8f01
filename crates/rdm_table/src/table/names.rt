//! The names of the standards' parameters, whether or not the table has them (ANSI E1.20-2010, table A-3, and ANSI E1.37-1). Those that a
//! profile can add are called as the list of them says.

ghost use Rattle.std.specs.Prelude.{◌≡◌, ◌==◌, find, map, option_map};
ghost use Rattle.std.specs.Option.{option_or};
ghost use Rattle.std.specs.Str.{bytes_eq};
ghost use Rattle.rdm_frame.specs.Names.{for_c, name_in};
ghost use Rattle.rdm_table.specs.Table.Names.{named_in, lent_names, other_names, pid_named, parameter_name};

use crate::{Kind, kind_of};
use rdm_frame::standard::{
    DISC_MUTE, DISC_UN_MUTE, DISC_UNIQUE_BRANCH, PARAMETER_DESCRIPTION, PROXIED_DEVICE_COUNT,
    PROXIED_DEVICES,
};
use rdm_profile_rules::standard_rows;

/// The parameters of ANSI E1.20-2010 that neither the table nor the list of those that a profile can add has: the PID and the name.
macro_rules! other_rows {
    ($use:ident) => {
        $use! {
            (DISC_UNIQUE_BRANCH "DISC_UNIQUE_BRANCH")
            (DISC_MUTE "DISC_MUTE")
            (DISC_UN_MUTE "DISC_UN_MUTE")
            (PROXIED_DEVICES "PROXIED_DEVICES")
            (PROXIED_DEVICE_COUNT "PROXIED_DEVICE_COUNT")
            (PARAMETER_DESCRIPTION "PARAMETER_DESCRIPTION")
        }
    };
}

macro_rules! names {
    ($(($pid:tt $name:literal $($more:tt)*))*) => {
        &[$(($pid, $name)),*]
    };
}

/// The same with a NUL behind each, as C wants a text.
macro_rules! names_for_c {
    ($(($pid:tt $name:literal $($more:tt)*))*) => {
        &[$(($pid, concat!($name, "\0"))),*]
    };
}

const OTHERS: &[(u16, &str)] = other_rows!(names);

const LENT: &[(u16, &str)] = standard_rows!(names);

const OTHERS_FOR_C: &[(u16, &str)] = other_rows!(names_for_c);

const LENT_FOR_C: &[(u16, &str)] = standard_rows!(names_for_c);

/// The PID of the parameter with this name in the standard, such as `DMX_START_ADDRESS` or `DISC_MUTE`, or `None` if the
/// standard has none: the text is compared byte for byte.
#[tactic(auto, unfolding(crate::specs::Table::Names::pid_named))]
pub fn pid_named(name: &[u8]) -> Option<u16>
    ensures { result ≡ pid_named name.now }
{
    match Kind::named(name) {
        Some(kind) => Some(kind.pid()),
        None => other_named(name),
    }
}

/// The PID of a parameter that isn't in the table.
fn other_named(name: &[u8]) -> Option<u16>
    ensures { result ≡ option_or (named_in other_names name.now) (named_in lent_names name.now) }
{
    match first_named(name) {
        Some(pid) => Some(pid),
        None => lent_named(name),
    }
}

/// The PID of a parameter that neither the table nor the list of those that a profile can add has.
fn first_named(name: &[u8]) -> Option<u16>
    ensures { result ≡ named_in other_names name.now }
{
    named_in(OTHERS, name)
}

/// The PID of a parameter that a profile can add.
fn lent_named(name: &[u8]) -> Option<u16>
    ensures { result ≡ named_in lent_names name.now }
{
    named_in(LENT, name)
}

/// The PID that stands beside a name in these rows.
fn named_in(rows: &'static [(u16, &'static str)], name: &[u8]) -> Option<u16>
    ensures { result ≡ named_in (map (λ row. (row.0, row.1.now)) rows.now) name.now }
{
    match row_named(rows, name) {
        Some(row) => Some(row.0),
        None => None,
    }
}

/// The first row with this name.
fn row_named(
    rows: &'static [(u16, &'static str)],
    name: &[u8],
) -> Option<&'static (u16, &'static str)>
    ensures { option_map (λ row. row.now) result ≡ find (λ row. bytes_eq name.now row.1.now) rows.now }
{
    rows.iter().find(|row| name == row.1.as_bytes())
}

/// The name of a parameter that isn't in the table, or `None` if it is another one: `Kind::name` has those of the table.
pub fn other_name(pid: u16) -> Option<&'static str>
    ensures { option_map (λ text. text.now) result ≡ option_or (name_in other_names pid) (name_in lent_names pid) }
{
    match name_in(OTHERS, pid) {
        Some(name) => Some(name),
        None => name_in(LENT, pid),
    }
}

/// The name that stands beside a PID in these rows.
fn name_in(rows: &'static [(u16, &'static str)], pid: u16) -> Option<&'static str>
    ensures { option_map (λ text. text.now) result ≡ name_in (map (λ row. (row.0, row.1.now)) rows.now) pid }
{
    match row_with(rows, pid) {
        Some(row) => Some(row.1),
        None => None,
    }
}

/// The first row with this PID.
fn row_with(rows: &'static [(u16, &'static str)], pid: u16) -> Option<&'static (u16, &'static str)>
    ensures { option_map (λ row. row.now) result ≡ find (λ row. pid == row.0) rows.now }
{
    rows.iter().find(|row| pid == row.0)
}

/// The name of a parameter in the standard, or `None` if the standard has none for its PID.
pub fn parameter_name(pid: u16) -> Option<&'static str>
    ensures { option_map (λ text. text.now) result ≡ parameter_name pid }
{
    match kind_of(pid) {
        Some(kind) => Some(kind.name()),
        None => other_name(pid),
    }
}

/// The name of a parameter in the standard and a NUL behind it, as C wants a text, or `None` if the standard has none for its PID.
pub fn parameter_name_for_c(pid: u16) -> Option<&'static [u8]>
    ensures { option_map (λ text. text.now) result ≡ option_map for_c (parameter_name pid) }
{
    match kind_of(pid) {
        Some(kind) => Some(kind.name_for_c()),
        None => other_name_for_c(pid),
    }
}

/// The name of a parameter that isn't in the table, with a NUL behind it.
fn other_name_for_c(pid: u16) -> Option<&'static [u8]>
    ensures { option_map (λ text. text.now) result ≡ option_map for_c (option_or (name_in other_names pid) (name_in lent_names pid)) }
{
    match other_text_for_c(pid) {
        Some(text) => Some(text.as_bytes()),
        None => None,
    }
}

/// The same as a text.
fn other_text_for_c(pid: u16) -> Option<&'static str>
    ensures { option_map (λ text. text.now) result ≡ option_map for_c (option_or (name_in other_names pid) (name_in lent_names pid)) }
{
    match name_in(OTHERS_FOR_C, pid) {
        Some(text) => Some(text),
        None => name_in(LENT_FOR_C, pid),
    }
}
