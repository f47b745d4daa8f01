//! What a command answers.

ghost use Rattle.std.specs.Prelude.{◌≡◌, true, [], ◌∷◌, ◌++◌};
ghost use Rattle.rdm_profile.specs.Values.{word_slots, long_slots};
ghost use Rattle.rdm_profile.specs.declared.value.Value.{Value};
ghost use Rattle.rdm_table.specs.declared.kind.Verb.TheVariants.{Get};
ghost use Rattle.rdm_table.specs.Table.Kinds.{pid_of};
ghost use Rattle.rdm_table.specs.Table.Rows.{row_of, command_in};
ghost use Rattle.rdm_table.specs.Table.Uses.{reply, is_bare};

use crate::table::list::supported;
use crate::table::rows;
use crate::{Kind, Verb};
use rdm_device::columns::replies;
use rdm_device::{Argument, Place};
use rdm_frame::{Body, Text};

macro_rules! reply_rows {
    (($kind:ident $verb:ident $place:ident $value:ident $body:ident) $(($name:ident $pid:tt $at:ident $get:tt $set:tt))*) => {
        match $kind {
            $(Kind::$name => match $verb {
                Verb::Get => reply_command!($get $place $value $body),
                Verb::Set => reply_command!($set $place $value $body),
            },)*
        }
    };
}

macro_rules! reply_command {
    ((reads $source:tt) $place:ident $value:ident $body:ident) => { source!($source $place $body) };
    ((asks $form:ident $range:tt $reply:ident) $place:ident $value:ident $body:ident) => {
        replies::$reply($place, $value, $body)
    };
    ((measures $form:ident $range:tt $slow:ident $reply:ident) $place:ident $value:ident $body:ident) => {
        replies::$reply($place, $value, $body)
    };
    ((sets $form:ident $range:tt $change:tt none) $place:ident $value:ident $body:ident) => { {} };
    ((sets $form:ident $range:tt $change:tt $reply:ident) $place:ident $value:ident $body:ident) => {
        replies::$reply($place, $value, $body)
    };
    ($command:tt $place:ident $value:ident $body:ident) => { {} };
}

macro_rules! source {
    ((listed) $place:ident $body:ident) => { supported($place, $body) };
    ((computed $reply:ident) $place:ident $body:ident) => { replies::$reply($place, $body) };
    ((own $form:ident $field:ident) $place:ident $body:ident) => {
        if let Some(own) = $place.own {
            typed!($form $body (own.$field))
        }
    };
    (($part:ident $form:ident $field:ident) $place:ident $body:ident) => { typed!($form $body ($place.$part.$field)) };
}

macro_rules! typed {
    (byte $body:ident ($field:expr)) => { $body.append(&[$field]) };
    (word $body:ident ($field:expr)) => { put_word($body, $field) };
    (long $body:ident ($field:expr)) => { put_long($body, $field) };
    (preset $body:ident ($field:expr)) => { put_preset($body, $field) };
    (text $body:ident ($field:expr)) => { put_text($body, &$field) };
}

/// Writes what a command answers at a device, which has carried it out, into an empty list.
#[tactic(auto, unfolding(crate::specs::Table::Rows::row_of, crate::specs::Table::Rows::table, rdm_added::specs::Views::State::common_entries, rdm_added::specs::Views::State::own_entries))]
pub fn reply_into(kind: Kind, verb: Verb, place: &Place<'_>, value: &Argument<'_>, body: &mut Body)
    requires { body.old ≡ [] }
    ensures { body.new ≡ reply (command_in (row_of (pid_of kind)) verb) place.now value.now }
{
    rows!(reply_rows!(kind verb place value body))
}

macro_rules! state_rows {
    (($kind:ident $place:ident $body:ident) $(($name:ident $pid:tt $at:ident $get:tt $set:tt))*) => {
        match $kind {
            $(Kind::$name => state_command!($get $place $body),)*
        }
    };
}

macro_rules! state_command {
    ((reads $source:tt) $place:ident $body:ident) => { source!($source $place $body) };
    ($command:tt $place:ident $body:ident) => { {} };
}

/// Writes what a GET without data answers at a device into an empty list.
// Apart from `reply_into`, which makes room for the data that other commands hand in.
#[tactic(auto, unfolding(crate::specs::Table::Rows::row_of, crate::specs::Table::Rows::table, rdm_added::specs::Views::State::common_entries, rdm_added::specs::Views::State::own_entries))]
pub fn state_into(kind: Kind, place: &Place<'_>, body: &mut Body)
    requires empty { body.old ≡ [] }
    requires bare { is_bare (command_in (row_of (pid_of kind)) Get) ≡ true }
    ensures { (value : Value) → body.new ≡ reply (command_in (row_of (pid_of kind)) Get) place.now value }
{
    rows!(state_rows!(kind place body))
}

// What follows are calls: if their bytes lay among those of `reply_into`, each reply would clear them all first.

/// Writes a 16-bit number, most significant byte first, into an empty list.
#[inline(never)]
fn put_word(body: &mut Body, number: u16)
    requires { body.old ≡ [] }
    ensures { body.new ≡ word_slots number }
{
    body.append(&number.to_be_bytes());
}

/// Writes a 32-bit number, most significant byte first, into an empty list.
#[inline(never)]
fn put_long(body: &mut Body, number: u32)
    requires { body.old ≡ [] }
    ensures { body.new ≡ long_slots number }
{
    body.append(&number.to_be_bytes());
}

/// Writes a preset and its level into an empty list.
#[inline(never)]
fn put_preset(body: &mut Body, preset: (u16, u8))
    requires { body.old ≡ [] }
    ensures { body.new ≡ word_slots preset.0 ++ preset.1 ∷ [] }
{
    body.append(&preset.0.to_be_bytes());
    body.append(&[preset.1]);
}

/// Writes a text into an empty list.
#[inline(never)]
fn put_text(body: &mut Body, text: &Text)
    requires { body.old ≡ [] }
    ensures { body.new ≡ text.now }
{
    body.append(text.as_slice());
}
