//! What the parameters that a maker adds take and reply.

mod choosing;
mod description;
mod fields;
mod locking;
mod numbers;
mod placing;
mod resetting;
mod scenes;
mod setting;

ghost use Rattle.std.specs.Prelude.{◌≡◌, ◌↔◌, ◌<◌, ◌≤◌, ◌==◌, ◌&&◌, int_le, [], IfSome, length, map, slice_set, slice_index_or, false, find};
ghost use Rattle.std.specs.List.{list_any};
ghost use Rattle.std.specs.Option.{option_copied};
ghost use Rattle.rdm_profile.specs.Forms.{sized, has_form, value_of, word};
ghost use Rattle.rdm_added.specs.Added.{added_value, is_pid_of, has_makers_pid, a_makers_pid};
ghost use Rattle.rdm_profile.specs.Fields.{says};
ghost use Rattle.rdm_added.specs.Map.{lookup, value_at};
ghost use Rattle.rdm_profile.specs.OwnParameters.{form_of, number_in, is_within, is_makers, has_get, has_set, is_order};
ghost use Rattle.rdm_profile.specs.Values.{bytes_of};
ghost use Rattle.rdm_added.specs.Views.State.{added_entries, kept_entry, stored_in, no_entry};

pub use crate::added::choosing::{a_name, choice_shown, greatest, has_name, name_shown};
pub use crate::added::description::{data_type_of, described, size_of};
pub use crate::added::locking::{is_locked, is_no_pin, is_set_locked};
pub(crate) use crate::added::locking::{
    does_one_lock, knows_old_pin, knows_pin, lock_state, new_pin, state_of,
};
pub use crate::added::numbers::{number_said, sets_number, store_number};
pub use crate::added::placing::{is_placed_within, keeps_data, read_placed, store_placed};
pub use crate::added::resetting::{are_at_start, set_added_back};
pub use crate::added::scenes::{a_scene, is_protected_scene, scene_shown};
pub(crate) use crate::added::scenes::{
    is_set_of, scene_count, scene_kept, scene_of, scene_placed, start_scenes,
};
pub(crate) use crate::added::setting::first_of;
pub use crate::added::setting::{read_set, store_set, takes};
use crate::place::Place;
use crate::state::Kept;
use rdm_frame::{Body, Text};
pub use rdm_profile::forms::sized;
use rdm_profile::{Argument, ParameterDef, Rights, Shape, ValueRef, forms, is_makers, writes};

/// The value that data say in a shape, if they have its length.
#[inline(always)]
pub fn read_shape(shape: Shape, data: &[u8]) -> Option<Argument<'_>>
    ensures { result ≡ value_of (form_of shape) data.now }
{
    match shape {
        Shape::Byte | Shape::SignedByte | Shape::Choice | Shape::Lock => forms::byte(data),
        Shape::Word | Shape::SignedWord | Shape::Pin => forms::word(data),
        Shape::Long | Shape::SignedLong => forms::long(data),
        Shape::Text => forms::label(data),
        Shape::Bits(size) => sized(size, data),
        Shape::Slots(size) => sized(size, data),
        Shape::Names | Shape::Rates | Shape::Scenes | Shape::Block => forms::nothing(data),
    }
}

/// Whether a value is in the range of a parameter: a number from its least to its greatest, slots that say numbers of its fields, or any
/// text.
#[inline(always)]
pub fn is_within(def: &ParameterDef, value: &Argument<'_>) -> bool
    ensures { result ≡ is_within def.now value.now }
{
    match number_in(def.shape, value) {
        Some(number) => lies(def, number),
        None => says_no_number(def, value),
    }
}

/// Whether data that are no number are in the range of a parameter.
// A call, so that numbers don't make room for it.
#[inline(never)]
fn says_no_number(def: &ParameterDef, value: &Argument<'_>) -> bool
    ensures { result ≡ (has_form (form_of def.now.shape) value.now && says def.now.fields.items value.now) }
{
    has_form(def.shape, value) && fields::says(def.fields.as_slice(), value)
}

/// The number that a value says in a shape, in two's complement where that is signed, or `None` where the data are no number.
#[inline(always)]
pub fn number_in(shape: Shape, value: &Argument<'_>) -> Option<i64>
    ensures { result ≡ number_in shape value.now }
{
    match shape {
        Shape::Byte | Shape::Choice | Shape::Lock => Some(value.byte()? as i64),
        Shape::Word | Shape::Pin => Some(value.word()? as i64),
        Shape::Long => Some(value.long()? as i64),
        Shape::SignedByte => Some(value.byte()?.cast_signed() as i64),
        Shape::SignedWord => Some(value.word()?.cast_signed() as i64),
        Shape::SignedLong => Some(value.long()?.cast_signed() as i64),
        Shape::Text
        | Shape::Bits(_)
        | Shape::Slots(_)
        | Shape::Names
        | Shape::Rates
        | Shape::Scenes
        | Shape::Block => None,
    }
}

/// Whether a value has the form of a shape.
fn has_form(shape: Shape, value: &Argument<'_>) -> bool
    ensures { result ≡ has_form (form_of shape) value.now }
{
    match shape {
        Shape::Byte | Shape::SignedByte | Shape::Choice | Shape::Lock => value.byte().is_some(),
        Shape::Word | Shape::SignedWord | Shape::Pin => value.word().is_some(),
        Shape::Long | Shape::SignedLong => value.long().is_some(),
        Shape::Text => value.is_label(),
        Shape::Bits(size) => has_size(value, size),
        Shape::Slots(size) => has_size(value, size),
        Shape::Names | Shape::Rates | Shape::Scenes | Shape::Block => value.is_nothing(),
    }
}

/// Whether a number lies from the least to the greatest of a parameter.
pub fn lies(def: &ParameterDef, number: i64) -> bool
    ensures { result ≡ (int_le def.now.low number && int_le number def.now.high) }
{
    def.low <= number && number <= def.high
}

/// Whether a value is so many slots.
fn has_size(value: &Argument<'_>, size: u8) -> bool
    ensures { result ≡ has_form (sized size) value.now }
{
    match value.label() {
        Some(bytes) => bytes.len() == size as usize,
        None => false,
    }
}

/// Whether a parameter has a GET.
pub fn has_get(rights: Rights) -> bool
    ensures { result ≡ has_get rights }
{
    match rights {
        Rights::Set => false,
        Rights::Get | Rights::Both | Rights::Clear => true,
    }
}

/// Whether a parameter has a SET.
pub fn has_set(rights: Rights) -> bool
    ensures { result ≡ has_set rights }
{
    match rights {
        Rights::Get => false,
        Rights::Set | Rights::Both | Rights::Clear => true,
    }
}

/// Whether a parameter is an order: it has no GET.
pub fn is_order(rights: Rights) -> bool
    ensures { result ≡ is_order rights }
{
    match rights {
        Rights::Set => true,
        Rights::Get | Rights::Both | Rights::Clear => false,
    }
}

/// The parameter with this PID among those that the maker adds.
pub fn parameter_of(defs: &[ParameterDef], pid: u16) -> Option<&ParameterDef>
    ensures { option_copied result ≡ find (is_pid_of pid) defs.now }
{
    defs.iter().find(|def| def.pid == pid)
}

/// Whether the maker adds a parameter with a PID that the standard leaves to makers.
pub fn has_makers(defs: &[ParameterDef]) -> bool
    ensures { result ≡ list_any has_makers_pid defs.now }
{
    defs.iter().any(|def| is_makers(def.pid))
}

/// A parameter that the maker adds, with a PID that the standard leaves to makers.
pub fn a_makers_pid(place: &Place<'_>, value: &Argument<'_>) -> bool
    ensures { result ≡ a_makers_pid word place.now value.now }
{
    match value.word() {
        Some(pid) => is_makers(pid) && has_pid(place.profile.particulars.own(), pid),
        None => false,
    }
}

/// Whether one of the parameters has this PID.
fn has_pid(defs: &[ParameterDef], pid: u16) -> bool
    ensures { result ≡ list_any (is_pid_of pid) defs.now }
{
    defs.iter().any(|def| def.pid == pid)
}

/// Writes what is kept of a parameter that the maker adds into an empty list.
#[inline(always)]
pub fn write_added(place: &Place<'_>, pid: u16, body: &mut Body)
    requires { body.old ≡ [] }
    ensures value { body.new ≡ added_value pid place.now }
    ensures few { length body.new ≤ 32 }
{
    if let Some(own) = place.own {
        write_kept(own.added.as_slice(), pid, body);
    }
}

#[inline(always)]
#[tactic(auto, using(crate::proofs::KeptValues::kept_is))]
fn write_kept(values: &[Kept], pid: u16, body: &mut Body)
    requires { body.old ≡ [] }
    ensures value { body.new ≡ lookup (added_entries values.now) pid 0 }
    ensures few { length body.new ≤ 32 }
{
    if let Some(kept) = kept_of(values, pid, 0) {
        write_bytes(kept.bytes.as_slice(), body);
    }
}

/// Writes these bytes into an empty list.
// A number is stored at once; a copy of any length is a call.
#[inline(always)]
fn write_bytes(bytes: &[u8], body: &mut Body)
    requires few { length bytes.now ≤ 32 }
    requires empty { body.old ≡ [] }
    ensures { body.new ≡ bytes.now }
{
    match bytes {
        [a] => body.append(&[*a]),
        [a, b] => body.append(&[*a, *b]),
        [a, b, c, d] => body.append(&[*a, *b, *c, *d]),
        _ => write_long(bytes, body),
    }
}

// A call, so that a number is stored without the registers of a copy.
#[inline(never)]
fn write_long(bytes: &[u8], body: &mut Body)
    requires few { length bytes.now ≤ 32 }
    requires empty { body.old ≡ [] }
    ensures { body.new ≡ bytes.now }
{
    body.append(bytes);
}

#[inline(always)]
fn kept_of(values: &[Kept], pid: u16, index: u16) -> Option<&Kept>
    ensures { option_copied result ≡ find (λ k. (k.pid == pid) && (k.index == index)) values.now }
{
    values
        .iter()
        .find(|kept| kept.pid == pid && kept.index == index)
}

/// The bytes at a key, and none if there is no such key.
#[inline(always)]
#[tactic(auto, using(crate::proofs::KeptValues::kept_is))]
fn bytes_at(values: &[Kept], pid: u16, index: u16) -> &[u8]
    ensures value { result.now ≡ lookup (added_entries values.now) pid index }
    ensures few { length result.now ≤ 32 }
{
    match kept_of(values, pid, index) {
        Some(kept) => kept.bytes.as_slice(),
        None => &[],
    }
}

/// What is kept of a parameter that the maker adds, if there is one with this PID: its data, whether or not it has a GET.
#[tactic(auto, using(crate::proofs::KeptValues::value_is))]
pub fn value_of(values: &[Kept], pid: u16) -> Option<&[u8]>
    ensures value { option_copied result ≡ value_at (added_entries values.now) pid }
    ensures few { IfSome result (λ bytes. length bytes.now ≤ 32) }
{
    match kept_of(values, pid, 0) {
        Some(kept) => Some(kept.bytes.as_slice()),
        None => None,
    }
}

/// Keeps the bytes that stand for the value of a command as a value of a parameter, and says whether they are others.
// From where they lie: as a text they would first be written, and copied.
#[inline(always)]
fn store_value(values: &mut Vec<Kept>, pid: u16, index: u16, value: &Argument<'_>) -> bool
    ensures after { added_entries values.new.items ≡ map (stored_in pid index (bytes_of value.now)) (added_entries values.old.items) }
    ensures same { (result ≡ false) ↔ (added_entries values.new.items ≡ added_entries values.old.items) }
{
    match &value.value {
        ValueRef::Nothing => store_in(values, pid, index, &[]),
        ValueRef::Byte(number) => store_in(values, pid, index, &[*number]),
        ValueRef::Word(number) => store_in(values, pid, index, &number.to_be_bytes()),
        ValueRef::Long(number) => store_in(values, pid, index, &number.to_be_bytes()),
        ValueRef::Preset(mode, level) => {
            let [upper, lower] = mode.to_be_bytes();
            store_in(values, pid, index, &[upper, lower, *level])
        }
        ValueRef::Label(bytes) => store_in(values, pid, index, bytes),
    }
}

/// Keeps these bytes as a value of a parameter, and says whether they are others.
fn store_in(values: &mut Vec<Kept>, pid: u16, index: u16, bytes: &[u8]) -> bool
    requires { length bytes.now ≤ 32 }
    ensures after { added_entries values.new.items ≡ map (stored_in pid index bytes.now) (added_entries values.old.items) }
    ensures same { (result ≡ false) ↔ (added_entries values.new.items ≡ added_entries values.old.items) }
{
    store_among(values.as_mut_slice(), pid, index, bytes)
}

/// The bytes that stand for the value of a command.
fn bytes_of(value: &Argument<'_>) -> Text
    ensures { result ≡ bytes_of value.now }
{
    let mut text = Text::new();
    match &value.value {
        ValueRef::Nothing => {}
        ValueRef::Byte(number) => text.append(&[*number]),
        ValueRef::Word(number) => text.append(&number.to_be_bytes()),
        ValueRef::Long(number) => text.append(&number.to_be_bytes()),
        ValueRef::Preset(mode, level) => {
            text.append(&mode.to_be_bytes());
            text.append(&[*level]);
        }
        ValueRef::Label(bytes) => text.append(bytes),
    }
    text
}

/// Keeps these bytes as each value at a key, and says whether one is another.
#[inline(always)]
fn store_among(values: &mut [Kept], pid: u16, index: u16, bytes: &[u8]) -> bool
    requires { length bytes.now ≤ 32 }
    ensures after { added_entries values.new ≡ map (stored_in pid index bytes.now) (added_entries values.old) }
    ensures same { (result ≡ false) ↔ (added_entries values.new ≡ added_entries values.old) }
{
    let mut changed = false;
    for i in 0..values.len() {
        let here = store_at(values, i, pid, index, bytes);
        changed = changed || here;
    }
    changed
}

/// Keeps these bytes at one place, if it has this key, and says whether they are others.
fn store_at(values: &mut [Kept], place: usize, pid: u16, index: u16, bytes: &[u8]) -> bool
    requires place { place < length values.old }
    requires few { length bytes.now ≤ 32 }
    ensures after { added_entries values.new
        ≡ slice_set (added_entries values.old) place (stored_in pid index bytes.now (slice_index_or (added_entries values.old) place no_entry)) }
    ensures same { (result ≡ false) ↔ (added_entries values.new ≡ added_entries values.old) }
{
    store_one(&mut values[place], pid, index, bytes)
}

/// Keeps these bytes, if it is the value at this key, and says whether they are others.
fn store_one(kept: &mut Kept, pid: u16, index: u16, bytes: &[u8]) -> bool
    requires { length bytes.now ≤ 32 }
    ensures after { kept_entry kept.new ≡ stored_in pid index bytes.now (kept_entry kept.old) }
    ensures same { (result ≡ false) ↔ (kept_entry kept.new ≡ kept_entry kept.old) }
{
    if kept.pid == pid && kept.index == index {
        writes::kept(&mut kept.bytes, bytes)
    } else {
        false
    }
}
