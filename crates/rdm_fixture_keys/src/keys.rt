//! What a key of a table says.

ghost use Rattle.std.specs.Prelude.{◌≡◌, ◌≤◌, pos, neg_ℤ, None, IfOk, IfErr, IfSome, IsOk, IsTrue, ◌↔◌, [], map, option_map};
ghost use Rattle.std.specs.Result.{result_ok};
ghost use Rattle.std.specs.List.{list_any, list_all};
ghost use Rattle.std.specs.Str.{bytes_eq};
ghost use Rattle.toml.specs.Data.{get_member};
ghost use Rattle.toml.specs.View.{view, table_view};
ghost use Rattle.rdm_fixture_keys.specs.Values as says;
ghost use Rattle.rdm_fixture_keys.specs.Keys.{must, may, has_only};
ghost use Rattle.rdm_fixture_keys.specs.Faults.{fault, told};
ghost use Rattle.rdm_fixture_keys.specs.Wrong as parts;
ghost use Rattle.rdm_fixture_keys.specs.declared.refusal.Wanted.TheVariants as wanted;
ghost use Rattle.rdm_standard_names.specs.Names.{greatest_of};

use crate::refusal::{Refusal, Wanted};
use rdm_frame::{Text, Uid};
use rdm_standard_names::NameKind;
use toml::{Table, Value};

/// What the key holds.
pub fn find<'a>(table: &'a Table, key: &str) -> Option<&'a Value>
    ensures { option_map (λ v. view v.now) result ≡ get_member key.now (table_view table.now) }
{
    table.get(key)
}

/// Refuses the first key that isn't one of these.
pub fn only(table: &Table, keys: &[&str]) -> Result<(), Refusal>
    ensures variant { IsOk result ↔ IsTrue (has_only (map (λ k. k.now) keys.now) (table_view table.now)) }
    ensures wrong { IfErr result (λ e. (parts.only (map (λ k. k.now) keys.now)).Wrong (table_view table.now) (told e)) }
{
    for (key, _) in table.iter() {
        if !is_one_of(key.as_str(), keys) {
            return Err(Refusal::at(key.as_str(), Wanted::NoSuchKey));
        }
    }
    Ok(())
}

/// Whether the key is one of these.
fn is_one_of(key: &str, keys: &[&str]) -> bool
    ensures { result ≡ list_any (λ k. bytes_eq key.now k.now) keys.now }
{
    keys.iter().any(|k| key == *k)
}

// ---- numbers

/// The number of a key that has to be there.
pub fn number(table: &Table, key: &str, least: u32, most: u32) -> Result<u32, Refusal>
    ensures value { result_ok result ≡ must (says.number least most) (get_member key.now (table_view table.now)) }
    ensures within { IfOk result (λ n. (least ≤ n) × (n ≤ most)) }
    ensures wrong { IfErr result (λ e. (parts.needed_number key.now least most).Wrong (table_view table.now) (told e)) }
{
    match find(table, key) {
        Some(value) => number_in(value, key, least, most),
        None => Err(Refusal::at(key, Wanted::Key)),
    }
}

/// The number of a key that may be left out.
pub fn number_or(
    table: &Table,
    key: &str,
    default: u32,
    least: u32,
    most: u32,
) -> Result<u32, Refusal>
    requires { (least ≤ default) × (default ≤ most) }
    ensures value { result_ok result ≡ may default (says.number least most) (get_member key.now (table_view table.now)) }
    ensures within { IfOk result (λ n. (least ≤ n) × (n ≤ most)) }
    ensures wrong { IfErr result (λ e. (parts.free_number key.now least most).Wrong (table_view table.now) (told e)) }
{
    match find(table, key) {
        Some(value) => number_in(value, key, least, most),
        None => Ok(default),
    }
}

fn number_in(value: &Value, key: &str, least: u32, most: u32) -> Result<u32, Refusal>
    ensures value { result_ok result ≡ says.number least most (view value.now) }
    ensures within { IfOk result (λ n. (least ≤ n) × (n ≤ most)) }
    ensures wrong { IfErr result (λ e. told e ≡ fault key.now (wanted.Number (pos least) (pos most))) }
{
    match integer_in(value, least, most) {
        Some(n) => Ok(n),
        None => Err(Refusal::at(
            key,
            Wanted::Number {
                least: i64::from(least),
                most: i64::from(most),
            },
        )),
    }
}

/// The integer of a value, if it is one of this range.
pub fn integer_in(value: &Value, least: u32, most: u32) -> Option<u32>
    ensures value { result ≡ says.number least most (view value.now) }
    ensures within { IfSome result (λ n. (least ≤ n) × (n ≤ most)) }
{
    if let Value::Integer(z) = value
        && *z >= i64::from(least)
        && *z <= i64::from(most)
    {
        return Some(*z as u32);
    }
    None
}

// ---- things that the standard has names for

/// The number that a key which has to be there holds, or names.
pub fn named(table: &Table, key: &str, kind: NameKind) -> Result<u32, Refusal>
    ensures value { result_ok result ≡ must (says.named kind) (get_member key.now (table_view table.now)) }
    ensures within { IfOk result (λ n. n ≤ greatest_of kind) }
    ensures wrong { IfErr result (λ e. (parts.needed_name key.now kind).Wrong (table_view table.now) (told e)) }
{
    match find(table, key) {
        Some(value) => number_named(value, key, kind),
        None => Err(Refusal::at(key, Wanted::Key)),
    }
}

/// The number that a key which may be left out holds, or names.
pub fn named_or(table: &Table, key: &str, kind: NameKind, default: u32) -> Result<u32, Refusal>
    requires { default ≤ greatest_of kind }
    ensures value { result_ok result ≡ may default (says.named kind) (get_member key.now (table_view table.now)) }
    ensures within { IfOk result (λ n. n ≤ greatest_of kind) }
    ensures wrong { IfErr result (λ e. (parts.free_name key.now kind).Wrong (table_view table.now) (told e)) }
{
    match find(table, key) {
        Some(value) => number_named(value, key, kind),
        None => Ok(default),
    }
}

fn number_named(value: &Value, key: &str, kind: NameKind) -> Result<u32, Refusal>
    ensures value { result_ok result ≡ says.named kind (view value.now) }
    ensures within { IfOk result (λ n. n ≤ greatest_of kind) }
    ensures wrong { IfErr result (λ e. told e ≡ fault key.now (wanted.Named kind)) }
{
    match number_or_name(value, kind) {
        Some(number) => Ok(number),
        None => Err(Refusal::at(key, Wanted::Named(kind))),
    }
}

fn number_or_name(value: &Value, kind: NameKind) -> Option<u32>
    ensures value { result ≡ says.named kind (view value.now) }
    ensures within { IfSome result (λ n. n ≤ greatest_of kind) }
{
    match value {
        Value::String(name) => kind.number(name),
        _ => integer_in(value, 0, kind.greatest()),
    }
}

// ---- signed numbers

/// The signed number of 16 bits of a key that may be left out.
pub fn signed_or(table: &Table, key: &str, default: i16) -> Result<i16, Refusal>
    ensures value { result_ok result ≡ may default says.signed (get_member key.now (table_view table.now)) }
    ensures wrong { IfErr result (λ e. (parts.free_signed key.now).Wrong (table_view table.now) (told e)) }
{
    match find(table, key) {
        Some(value) => signed_in(value, key),
        None => Ok(default),
    }
}

/// The signed number of 16 bits that a key holds.
pub fn signed_in(value: &Value, key: &str) -> Result<i16, Refusal>
    ensures value { result_ok result ≡ says.signed (view value.now) }
    ensures wrong { IfErr result (λ e. told e ≡ fault key.now (wanted.Number (neg_ℤ (pos 32768)) (pos 32767))) }
{
    match integer16_in(value) {
        Some(z) => Ok(z),
        None => Err(Refusal::at(
            key,
            Wanted::Number {
                least: -32768,
                most: 32767,
            },
        )),
    }
}

/// The integer of a value, if it is one of 16 bits.
pub fn integer16_in(value: &Value) -> Option<i16>
    ensures { result ≡ says.signed (view value.now) }
{
    if let Value::Integer(z) = value
        && *z >= -32768
        && *z <= 32767
    {
        return Some(*z as i16);
    }
    None
}

/// The integer of a key that may be left out, in this range.
pub fn integer_or(
    table: &Table,
    key: &str,
    default: i64,
    least: i64,
    most: i64,
) -> Result<i64, Refusal>
    ensures value { result_ok result ≡ may default (says.integer_from least most) (get_member key.now (table_view table.now)) }
    ensures wrong { IfErr result (λ e. (parts.free key.now (says.integer_from least most) (wanted.Number least most)).Wrong (table_view table.now) (told e)) }
{
    match find(table, key) {
        Some(value) => match integer_from(value, least, most) {
            Some(number) => Ok(number),
            None => Err(Refusal::at(key, Wanted::Number { least, most })),
        },
        None => Ok(default),
    }
}

/// The integer of a value, if it is one of this range.
pub fn integer_from(value: &Value, least: i64, most: i64) -> Option<i64>
    ensures { result ≡ says.integer_from least most (view value.now) }
{
    if let Value::Integer(z) = value
        && least <= *z
        && *z <= most
    {
        return Some(*z);
    }
    None
}

// ---- truths

/// `true` or `false` at a key that may be left out.
pub fn flag_or(table: &Table, key: &str, default: bool) -> Result<bool, Refusal>
    ensures value { result_ok result ≡ may default says.flag (get_member key.now (table_view table.now)) }
    ensures wrong { IfErr result (λ e. (parts.free key.now says.flag wanted.Boolean).Wrong (table_view table.now) (told e)) }
{
    match find(table, key) {
        Some(value) => match flag_in(value) {
            Some(flag) => Ok(flag),
            None => Err(Refusal::at(key, Wanted::Boolean)),
        },
        None => Ok(default),
    }
}

/// The truth of a value, if it is one.
pub fn flag_in(value: &Value) -> Option<bool>
    ensures { result ≡ says.flag (view value.now) }
{
    match value {
        Value::Boolean(flag) => Some(*flag),
        _ => None,
    }
}

// ---- texts

/// The text of a key that may be left out: it is empty then.
pub fn text_or_none(table: &Table, key: &str) -> Result<Text, Refusal>
    ensures value { result_ok result ≡ may [] says.text (get_member key.now (table_view table.now)) }
    ensures wrong { IfErr result (λ e. (parts.free_text key.now).Wrong (table_view table.now) (told e)) }
{
    match find(table, key) {
        Some(value) => text_in(value, key),
        None => Ok(Text::new()),
    }
}

fn text_in(value: &Value, key: &str) -> Result<Text, Refusal>
    ensures value { result_ok result ≡ says.text (view value.now) }
    ensures wrong { IfErr result (λ e. told e ≡ fault key.now wanted.Text) }
{
    match printable_in(value) {
        Some(text) => Ok(text),
        None => Err(Refusal::at(key, Wanted::Text)),
    }
}

/// The text of a value, if it is one that can be sent.
pub fn printable_in(value: &Value) -> Option<Text>
    ensures { result ≡ says.text (view value.now) }
{
    if let Value::String(text) = value {
        let bytes = text.as_bytes();
        if bytes.len() <= 32 && are_printable(bytes) {
            return Some(Text::of(bytes));
        }
    }
    None
}

/// Whether every character is printable.
pub fn are_printable(bytes: &[u8]) -> bool
    ensures { result ≡ list_all says.is_printable bytes.now }
{
    bytes.iter().all(|b| (0x20..=0x7E).contains(b))
}

/// The UID of a key that has to be there.
pub fn own_uid(table: &Table, key: &str) -> Result<Uid, Refusal>
    ensures value { result_ok result ≡ must says.uid (get_member key.now (table_view table.now)) }
    ensures wrong { IfErr result (λ e. (parts.needed key.now says.uid wanted.Uid).Wrong (table_view table.now) (told e)) }
{
    match find(table, key) {
        Some(value) => uid_in(value).ok_or(Refusal::at(key, Wanted::Uid)),
        None => Err(Refusal::at(key, Wanted::Key)),
    }
}

/// The UID of a value, if it is one of one device.
pub fn uid_in(value: &Value) -> Option<Uid>
    ensures { result ≡ says.uid (view value.now) }
{
    let Value::String(text) = value else {
        return None;
    };
    let uid = Uid::from_text(text.as_bytes())?;
    if uid.is_broadcast() {
        return None;
    }
    Some(uid)
}
