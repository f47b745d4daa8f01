//! What is put into a table, key by key.

ghost use Rattle.std.specs.Prelude.{◌≡◌, ◌≤◌, ◌+◌, ℕ, pos, [], None, Some, IsOk, IfOk, IfSome, IsTrue, All, length, option_map, codes};
ghost use Rattle.toml.specs.Data.{Members, table as table_data, string, integer, boolean};
ghost use Rattle.toml.specs.View.{view, table_view};
ghost use Rattle.rdm_profile.specs.MuteReply.{can_bind};
ghost use Rattle.rdm_profile.specs.Workers.{worker_number};
ghost use Rattle.rdm_fixture.specs.Describable.{are_printable};
ghost use Rattle.rdm_fixture_keys.specs.Keys.{may};
ghost use Rattle.rdm_fixture.specs.Lists.{OfTable, ListAt};
ghost use Rattle.rdm_fixture_keys.specs.Values as says;
ghost use Rattle.rdm_fixture.specs.Writing.{with_field, text_field, flag_field, uid_field, named_field, label_field, IsPlain};
ghost use Rattle.rdm_standard_names.specs.Names.{greatest_of};

use rdm_device::Worker;
use rdm_frame::{Text, Uid};
use rdm_standard_names::NameKind;
use rdm_standard_names::slots::PRIMARY_SLOT;
use std::alloc::{AllocError, Global};
use toml::{Table, Value};

/// What is written as an entry of a list of tables.
pub(super) trait ToEntry {
    ghost says: { ℕ → Members → Self → Type 0 };

    ghost can: { ℕ → Self → Type 0 };

    ghost deep: { ℕ };

    /// The entry. It says the item for each number of slots with which the item can be (a personality uses no more than there are).
    fn to_entry(&self, alloc: Global) -> Result<Table, AllocError>
        ensures says { IfOk result (λ t. (slots : ℕ) → can slots self.now → says slots (table_view t) self.now) }
        ensures plain { IfOk result (λ t. IsPlain deep (table_data (table_view t))) };
}

/// Puts a value at the key, if there is one.
pub(super) fn put(
    alloc: Global,
    table: &mut Table,
    key: &str,
    value: Option<Value>,
) -> Result<(), AllocError>
    ensures { IsOk result → table_view table.new ≡ with_field key.now (option_map view value) (table_view table.old) }
{
    let Some(value) = value else {
        return Ok(());
    };
    table.insert(String::from_str(alloc, key)?, value)?;
    Ok(())
}

/// Puts a number of 8 bits at the key.
pub(super) fn put_byte(
    alloc: Global,
    table: &mut Table,
    key: &str,
    number: u8,
) -> Result<(), AllocError>
    ensures put { IsOk result → table_view table.new ≡ with_field key.now (Some (integer (pos number))) (table_view table.old) }
    ensures says { says.number 0 0xFF (integer (pos number)) ≡ Some number }
{
    put(alloc, table, key, Some(Value::from(number)))
}

/// Puts a number of 16 bits at the key.
pub(super) fn put_word(
    alloc: Global,
    table: &mut Table,
    key: &str,
    number: u16,
) -> Result<(), AllocError>
    ensures put { IsOk result → table_view table.new ≡ with_field key.now (Some (integer (pos number))) (table_view table.old) }
    ensures says { says.number 0 0xFFFF (integer (pos number)) ≡ Some number }
{
    put(alloc, table, key, Some(Value::from(u32::from(number))))
}

/// Puts a number of 32 bits at the key.
pub(super) fn put_long(
    alloc: Global,
    table: &mut Table,
    key: &str,
    number: u32,
) -> Result<(), AllocError>
    ensures put { IsOk result → table_view table.new ≡ with_field key.now (Some (integer (pos number))) (table_view table.old) }
    ensures says { says.number 0 0xFFFFFFFF (integer (pos number)) ≡ Some number }
{
    put(alloc, table, key, Some(Value::from(number)))
}

/// Puts the name of a number of 8 bits at the key, or the number if the standard has no name for it.
#[tactic(auto, using(crate::proofs::WrittenNames::byte_says))]
pub(super) fn put_named_byte(
    alloc: Global,
    table: &mut Table,
    key: &str,
    kind: NameKind,
    number: u8,
) -> Result<(), AllocError>
    requires { greatest_of kind ≡ 0xFF }
    ensures put { IsOk result → table_view table.new ≡ with_field key.now (Some (named_field kind number)) (table_view table.old) }
    ensures says { says.named kind (named_field kind number) ≡ Some number }
{
    let value = name_or_number(alloc, kind, u32::from(number))?;
    put(alloc, table, key, Some(value))
}

/// The same of a number of 16 bits.
#[tactic(auto, using(crate::proofs::WrittenNames::word_says))]
pub(super) fn put_named_word(
    alloc: Global,
    table: &mut Table,
    key: &str,
    kind: NameKind,
    number: u16,
) -> Result<(), AllocError>
    requires { greatest_of kind ≡ 0xFFFF }
    ensures put { IsOk result → table_view table.new ≡ with_field key.now (Some (named_field kind number)) (table_view table.old) }
    ensures says { says.named kind (named_field kind number) ≡ Some number }
{
    let value = name_or_number(alloc, kind, u32::from(number))?;
    put(alloc, table, key, Some(value))
}

/// The name of a number, or the number if the standard has no name for it.
#[tactic(auto, using(crate::proofs::WrittenNames::written_name, crate::proofs::WrittenNames::written_number))]
fn name_or_number(alloc: Global, kind: NameKind, number: u32) -> Result<Value, AllocError>
    ensures { IfOk result (λ v. view v ≡ named_field kind number) }
{
    match kind.name(number) {
        Some(name) => Value::string(alloc, name),
        None => Ok(Value::from(number)),
    }
}

/// Puts the label ID of a slot of this type: that of a primary slot by its name, if it has one.
#[tactic(auto, using(crate::proofs::WrittenNames::named_label_says, crate::proofs::WrittenNames::plain_label_says))]
pub(super) fn put_label(
    alloc: Global,
    table: &mut Table,
    kind: u8,
    label: u16,
) -> Result<(), AllocError>
    ensures put { IsOk result → table_view table.new ≡ with_field (codes "label_id") (Some (label_field kind label)) (table_view table.old) }
    ensures says { says.label_id kind (label_field kind label) ≡ Some label }
{
    if kind == PRIMARY_SLOT {
        put_named_word(alloc, table, "label_id", NameKind::Labels, label)
    } else {
        put_word(alloc, table, "label_id", label)
    }
}

/// Puts a signed number of 16 bits at the key.
pub(super) fn put_signed(
    alloc: Global,
    table: &mut Table,
    key: &str,
    number: i16,
) -> Result<(), AllocError>
    ensures put { IsOk result → table_view table.new ≡ with_field key.now (Some (integer number)) (table_view table.old) }
    ensures says { says.signed (integer number) ≡ Some number }
{
    put(alloc, table, key, Some(Value::from(i32::from(number))))
}

/// Puts an integer at the key.
pub(super) fn put_integer(
    alloc: Global,
    table: &mut Table,
    key: &str,
    number: i64,
) -> Result<(), AllocError>
    ensures { IsOk result → table_view table.new ≡ with_field key.now (Some (integer number)) (table_view table.old) }
{
    put(alloc, table, key, Some(Value::from(number)))
}

/// Puts `true` or `false` at the key.
pub(super) fn put_flag(
    alloc: Global,
    table: &mut Table,
    key: &str,
    flag: bool,
) -> Result<(), AllocError>
    ensures { IsOk result → table_view table.new ≡ with_field key.now (Some (boolean flag)) (table_view table.old) }
{
    put(alloc, table, key, Some(Value::from(flag)))
}

/// Puts `true` at the key, or nothing if it isn't so.
pub(super) fn put_true(
    alloc: Global,
    table: &mut Table,
    key: &str,
    flag: bool,
) -> Result<(), AllocError>
    ensures { IsOk result → table_view table.new ≡ with_field key.now (flag_field flag) (table_view table.old) }
{
    if flag {
        put_flag(alloc, table, key, true)
    } else {
        Ok(())
    }
}

/// Puts the number of a worker at the key.
pub(super) fn put_worker(
    alloc: Global,
    table: &mut Table,
    key: &str,
    worker: Worker,
) -> Result<(), AllocError>
    ensures { IsOk result → table_view table.new ≡ with_field key.now (Some (integer (pos (worker_number worker)))) (table_view table.old) }
{
    put(alloc, table, key, Some(Value::from(worker.number())))
}

/// Puts a name at the key.
pub(super) fn put_name(
    alloc: Global,
    table: &mut Table,
    key: &str,
    name: &str,
) -> Result<(), AllocError>
    ensures { IsOk result → table_view table.new ≡ with_field key.now (Some (string name.now)) (table_view table.old) }
{
    let value = Value::string(alloc, name)?;
    put(alloc, table, key, Some(value))
}

/// Puts a text at the key, unless it is empty.
pub(super) fn put_text(
    alloc: Global,
    table: &mut Table,
    key: &str,
    text: &Text,
) -> Result<(), AllocError>
    ensures put { IsOk result → table_view table.new ≡ with_field key.now (text_field text.now) (table_view table.old) }
    ensures says { IsTrue (are_printable text.now) → may [] says.text (text_field text.now) ≡ Some text.now }
{
    let bytes = text.as_slice();
    if bytes.is_empty() {
        return Ok(());
    }
    let string = String::from_utf8_lossy(alloc, bytes)?;
    put(alloc, table, key, Some(Value::String(string)))
}

/// Puts the text of a UID at the key, if there is one.
pub(super) fn put_uid(
    alloc: Global,
    table: &mut Table,
    key: &str,
    uid: Option<Uid>,
) -> Result<(), AllocError>
    ensures put { IsOk result → table_view table.new ≡ with_field key.now (uid_field uid) (table_view table.old) }
    ensures says { IsTrue (can_bind uid) → may None says.only_uid (uid_field uid) ≡ Some uid }
{
    let Some(uid) = uid else {
        return Ok(());
    };
    let text = format!(in alloc; "{uid}")?;
    put(alloc, table, key, Some(Value::String(text)))
}

/// The list of the entries, or nothing if there are none.
pub(super) fn list_of<E: ToEntry>(alloc: Global, items: &[E]) -> Result<Option<Value>, AllocError>
    ensures says { IfOk result (λ v. (slots : ℕ) → All (E.can slots) items.now → ListAt (OfTable (E.says slots)) (option_map view v) items.now) }
    ensures plain { IfOk result (λ v. IfSome v (λ x. IsPlain (E.deep + 1) (view x))) }
{
    if items.is_empty() {
        return Ok(None);
    }
    let mut entries = Vec::new(alloc);
    for item in items {
        entries.push(Value::Table(item.to_entry(alloc)?))?;
    }
    Ok(Some(Value::Array(entries)))
}
