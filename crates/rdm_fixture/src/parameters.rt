//! The parameters that the profile adds, as entries of a list.

ghost use Rattle.std.specs.Prelude.{◌≡◌, Some, IfErr, codes};
ghost use Rattle.std.specs.Result.{result_ok};
ghost use Rattle.toml.specs.Data.{get_member};
ghost use Rattle.toml.specs.View.{view, table_view};
ghost use Rattle.rdm_profile.specs.declared.profile.own.Rights.TheVariants as rights;
ghost use Rattle.rdm_fixture_keys.specs.Faults.{told};
ghost use Rattle.rdm_fixture.specs.FirstWrong as parts;
ghost use Rattle.rdm_fixture_keys.specs.Keys.{must, Reads};
ghost use Rattle.rdm_fixture.specs.Parameters as says;
ghost use Rattle.rdm_fixture.specs.Parameters.{SaysParameter, IsParameter};
ghost use Rattle.rdm_fixture_keys.specs.Wrong.{FirstWrong, needed};
ghost use Rattle.rdm_fixture_keys.specs.declared.refusal.Wanted.TheVariants as wanted;

mod fields;
mod limits;
mod starting;

use crate::lists::FromEntry;
use fields::fields;
use limits::{greatest, least};
pub(crate) use limits::{greatest_of, least_of};
use rdm_device::{ParameterDef, Rights, Shape, can_start, follows, has_good_fields, is_addable};
use rdm_fixture_keys::keys::{find, flag_or, integer_in, named_or, only, text_or_none};
use rdm_fixture_keys::{Agreement, Refusal, Wanted};
use rdm_standard_names::NameKind;
use starting::start;
use toml::{Table, Value};

impl FromEntry for ParameterDef {
    ghost says = { λ _. IsParameter };

    ghost wrong = { λ _. FirstWrong parts.parameter_parts };

    fn from_entry(table: &Table, _slots: u16) -> Result<ParameterDef, Refusal> {
        let def = parameter(table)?;
        if !has_good_fields(&def) {
            return Err(Refusal::at("fields", Wanted::Agreement(Agreement::AllSlots)));
        }
        if !can_start(&def) {
            return Err(Refusal::at("default_value", Wanted::Agreement(Agreement::Start)));
        }
        if !follows(&def) {
            return Err(Refusal::at("pid", Wanted::Agreement(Agreement::Standard)));
        }
        if !can_reset(&def) {
            return Err(Refusal::at("factory_defaults", Wanted::Agreement(Agreement::Reset)));
        }
        Ok(def)
    }
}

/// The parameter that the keys of a table say.
fn parameter(table: &Table) -> Result<ParameterDef, Refusal>
    ensures read { Reads SaysParameter (table_view table.now) result }
    ensures wrong { IfErr result (λ e. FirstWrong parts.said_parts (table_view table.now) (told e)) }
{
    only(
        table,
        &[
            "pid",
            "command_class",
            "data_type",
            "minimum_valid_value",
            "maximum_valid_value",
            "fields",
            "default_value",
            "unit",
            "prefix",
            "factory_defaults",
            "description",
        ],
    )?;
    let pid = own_pid(table)?;
    let rights = rights(table)?;
    let shape = shape(table)?;
    let low = least(table, shape)?;
    let high = greatest(table, shape, low)?;
    let fields = fields(table)?;
    let start = start(table, shape, low, high)?;
    let unit = named_or(table, "unit", NameKind::Units, 0)? as u8;
    let prefix = named_or(table, "prefix", NameKind::Prefixes, 0)? as u8;
    let resets = flag_or(table, "factory_defaults", is_setting(rights, shape))?;
    let name = text_or_none(table, "description")?;
    Ok(ParameterDef {
        pid,
        rights,
        shape,
        low,
        high,
        fields,
        start,
        unit,
        prefix,
        name,
        resets,
    })
}

// ---- its PID and its commands

fn own_pid(table: &Table) -> Result<u16, Refusal>
    ensures value { result_ok result ≡ must says.own_pid (get_member (codes "pid") (table_view table.now)) }
    ensures wrong { IfErr result (λ e. (needed (codes "pid") says.own_pid wanted.Pid).Wrong (table_view table.now) (told e)) }
{
    match find(table, "pid") {
        Some(value) => own_pid_in(value).ok_or(Refusal::at("pid", Wanted::Pid)),
        None => Err(Refusal::at("pid", Wanted::Key)),
    }
}

/// The PID, if a profile can add a parameter with it.
fn own_pid_in(value: &Value) -> Option<u16>
    ensures { result ≡ says.own_pid (view value.now) }
{
    let pid = integer_in(value, 0, 0xFFFF)? as u16;
    if is_addable(pid) { Some(pid) } else { None }
}

fn rights(table: &Table) -> Result<Rights, Refusal>
    ensures value { result_ok result ≡ must says.command_class (get_member (codes "command_class") (table_view table.now)) }
    ensures wrong { IfErr result (λ e. (needed (codes "command_class") says.command_class wanted.CommandClass).Wrong (table_view table.now) (told e)) }
{
    match find(table, "command_class") {
        Some(value) => {
            rights_in(value).ok_or(Refusal::at("command_class", Wanted::CommandClass))
        }
        None => Err(Refusal::at("command_class", Wanted::Key)),
    }
}

fn rights_in(value: &Value) -> Option<Rights>
    ensures { result ≡ says.command_class (view value.now) }
{
    let Value::String(name) = value else {
        return None;
    };
    match name.as_str() {
        "get" => Some(Rights::Get),
        "set" => Some(Rights::Set),
        "get_set" => Some(Rights::Both),
        "get_clear" => Some(Rights::Clear),
        _ => None,
    }
}

/// Whether FACTORY_DEFAULTS sets it back, unless the file says otherwise: it does so if it is a setting.
fn is_setting(rights: Rights, shape: Shape) -> bool
    ensures { result ≡ says.is_setting rights shape }
{
    match rights {
        Rights::Both => is_set_back(shape),
        Rights::Get | Rights::Set | Rights::Clear => false,
    }
}

/// Whether data that can be set are those of a setting.
fn is_set_back(shape: Shape) -> bool
    ensures { result ≡ says.is_setting rights.Both shape }
{
    !matches!(
        shape,
        Shape::Scenes | Shape::Lock | Shape::Pin | Shape::Block
    )
}

/// Whether FACTORY_DEFAULTS sets it back only if that changes something.
pub(crate) fn can_reset(def: &ParameterDef) -> bool
    ensures { result ≡ says.can_reset def.now }
{
    !def.resets || is_told_back(def.rights, def.shape)
}

/// Whether there is a value to set back, and that is told or used afterwards.
fn is_told_back(rights: Rights, shape: Shape) -> bool
    ensures { result ≡ says.is_told_back rights shape }
{
    match shape {
        Shape::Scenes | Shape::Names | Shape::Rates | Shape::Block => false,
        Shape::Pin => true,
        _ => !matches!(rights, Rights::Set),
    }
}

// ---- its data

fn shape(table: &Table) -> Result<Shape, Refusal>
    ensures value { result_ok result ≡ says.shape_in (table_view table.now) }
    ensures wrong { IfErr result (λ e. parts.type_part.Wrong (table_view table.now) (told e)) }
{
    let slots = slots_of(table);
    match find(table, "data_type") {
        Some(value) => shape_in(value, slots).ok_or(Refusal::at("data_type", Wanted::DataType)),
        None => Err(Refusal::at("data_type", Wanted::Key)),
    }
}

/// As many slots as the default value has digits for.
fn slots_of(table: &Table) -> u8
    ensures { result ≡ says.slots_of (get_member (codes "default_value") (table_view table.now)) }
{
    match find(table, "default_value") {
        Some(value) => slots_in(value),
        None => 0,
    }
}

fn slots_in(value: &Value) -> u8
    ensures { result ≡ says.slots_of (Some (view value.now)) }
{
    match value {
        Value::String(text) => (text.len() / 2).min(255) as u8,
        _ => 0,
    }
}

/// The data of the type that is named, of so many slots if the type leaves that open.
fn shape_in(value: &Value, slots: u8) -> Option<Shape>
    ensures { result ≡ says.data_type slots (view value.now) }
{
    let Value::String(name) = value else {
        return None;
    };
    match name.as_str() {
        "unsigned_byte" => Some(Shape::Byte),
        "signed_byte" => Some(Shape::SignedByte),
        "unsigned_word" => Some(Shape::Word),
        "signed_word" => Some(Shape::SignedWord),
        "unsigned_dword" => Some(Shape::Long),
        "signed_dword" => Some(Shape::SignedLong),
        "ascii" => Some(Shape::Text),
        "bit_field" => Some(Shape::Bits(slots)),
        "not_defined" => Some(Shape::Slots(slots)),
        "choice" => Some(Shape::Choice),
        "names" => Some(Shape::Names),
        "rates" => Some(Shape::Rates),
        "scenes" => Some(Shape::Scenes),
        "lock" => Some(Shape::Lock),
        "pin" => Some(Shape::Pin),
        "block" => Some(Shape::Block),
        _ => None,
    }
}
