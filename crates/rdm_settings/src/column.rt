//! The columns of a file.

ghost use Rattle.std.specs.Prelude.{◌≡◌, [], IfOk, map};
ghost use Rattle.std.specs.List.{list_any};
ghost use Rattle.rdm_settings.specs.Columns.{AreColumns, IsColumn, Knows, is_for, named, meaning_as, meaning_behind, meaning_of, pid_in, role_of};

use crate::cell::utf8_in;
use crate::complaint::{Trouble, kept};
use rdm_entry::{Field, fields_of, parameter_named};
use rdm_frame::Load;
use rdm_frame::digits::word_in;
use rdm_params::Verb;
use std::alloc::{AllocError, Global};

/// The first PID of those that the standard leaves to makers (E1.20 table A-3).
const FIRST_OF_MAKERS: u16 = 0x8000;

/// What a name says that a column has.
#[derive(Clone, Copy)]
pub(crate) enum Role {
    /// The fixtures.
    Uid,
    /// Their sub-devices.
    Sub,
    /// The data of a parameter.
    Parameter(u16),
}

/// What a column has.
#[derive(Clone, Copy)]
pub(crate) enum Meaning {
    /// The fixtures.
    Uid,
    /// Their sub-devices.
    Sub,
    /// The data of a parameter, and the fields of these, if they are known.
    Parameter(u16, Option<&'static [Field]>),
    /// Nothing, since this is wrong with it.
    Nothing(Trouble),
}

/// A column of a file.
#[derive(Drop)]
pub(crate) struct Column {
    /// Its name, or the first 255 bytes of it.
    pub name: Load,
    /// What it has.
    pub meaning: Meaning,
}

/// The columns with these names.
pub(crate) fn columns_of(alloc: Global, names: &[&[u8]]) -> Result<Vec<Column>, AllocError>
    ensures { IfOk result (λ columns. AreColumns [] (map (λ name. name.now) names.now) columns.items) }
{
    let mut columns = Vec::new(alloc);
    let mut rest = names;
    while let [name, more @ ..] = rest {
        let column = column_of(columns.as_slice(), name);
        columns.push(column)?;
        rest = more;
    }
    Ok(columns)
}

/// The column with a name, behind these.
#[tactic(auto, unfolding(crate::specs::Columns::IsColumn))]
fn column_of(before: &[Column], name: &[u8]) -> Column
    ensures { IsColumn before.now name.now result }
{
    let role = role_of(name);
    let fields = known_fields(role);
    Column {
        name: kept(name),
        meaning: meaning_of(before, role, fields),
    }
}

/// The fields of the parameter that a column has, if they are known.
fn known_fields(role: Option<Role>) -> Option<&'static [Field]>
    ensures { Knows role result }
{
    match role {
        Some(Role::Parameter(pid)) => fields_of(pid, Verb::Set),
        _ => None,
    }
}

/// What a column has, behind these.
fn meaning_of(before: &[Column], role: Option<Role>, fields: Option<&'static [Field]>) -> Meaning
    ensures { result ≡ meaning_of before.now role fields.entry }
{
    match role {
        None => Meaning::Nothing(Trouble::NoParameter),
        Some(role) => meaning_behind(before, role, fields),
    }
}

/// What a column has by its name, unless one of these has it.
fn meaning_behind(before: &[Column], role: Role, fields: Option<&'static [Field]>) -> Meaning
    ensures { result ≡ meaning_behind before.now role fields.entry }
{
    if has_column(before, role) {
        Meaning::Nothing(Trouble::ColumnTwice)
    } else {
        meaning_as(role, fields)
    }
}

/// Whether there is a column that has what a role says.
pub(crate) fn has_column(columns: &[Column], role: Role) -> bool
    ensures { result ≡ list_any (λ column. is_for role column) columns.now }
{
    columns.iter().any(|column| is_for(role, column))
}

/// What a column has by its own name.
fn meaning_as(role: Role, fields: Option<&'static [Field]>) -> Meaning
    ensures { result ≡ meaning_as role fields.entry }
{
    match role {
        Role::Uid => Meaning::Uid,
        Role::Sub => Meaning::Sub,
        Role::Parameter(pid) if pid >= FIRST_OF_MAKERS || fields.is_some() => {
            Meaning::Parameter(pid, fields)
        }
        Role::Parameter(pid) => Meaning::Nothing(Trouble::NotSettable(pid)),
    }
}

/// Whether a column has what a role says.
pub(crate) fn is_for(role: Role, column: &Column) -> bool
    ensures { result ≡ is_for role column.now }
{
    match (role, column.meaning) {
        (Role::Uid, Meaning::Uid) => true,
        (Role::Sub, Meaning::Sub) => true,
        (Role::Parameter(pid), Meaning::Parameter(other, _)) => pid == other,
        _ => false,
    }
}

/// What a name says that a column has, if it is one.
#[tactic(auto, unfolding(crate::specs::Columns::role_of))]
fn role_of(name: &[u8]) -> Option<Role>
    ensures { result ≡ role_of name.now }
{
    if name.eq_ignore_ascii_case(b"uid") {
        Some(Role::Uid)
    } else if name.eq_ignore_ascii_case(b"sub") {
        Some(Role::Sub)
    } else {
        match pid_in(name) {
            Some(pid) => Some(Role::Parameter(pid)),
            None => None,
        }
    }
}

/// The PID of the parameter that is named, by four hexadecimal digits or by its name in the standard.
fn pid_in(name: &[u8]) -> Option<u16>
    ensures { result ≡ pid_in name.now }
{
    match word_in(name) {
        Some(pid) => Some(pid),
        None => named(name),
    }
}

/// The PID of the parameter with this name.
fn named(name: &[u8]) -> Option<u16>
    ensures { result ≡ named name.now }
{
    parameter_named(utf8_in(name)?)
}
