//! The list of supported parameters.

ghost use Rattle.std.specs.Prelude.{◌≡◌, true, false, [], flat_map};
ghost use Rattle.rdm_profile.specs.Values.{word_slots};
ghost use Rattle.rdm_table.specs.Table.Rows.{supported, supported_pids, table_pids};

use crate::table::chosen::put_chosen;
use crate::table::rows;
use rdm_device::{Place, Profile};
use rdm_frame::Body;

macro_rules! root_rows {
    (($list:ident) $(($name:ident $pid:tt $at:ident $get:tt $set:tt))*) => {
        { $(list_row!($name $pid $list);)* }
    };
}

macro_rules! sub_rows {
    (($list:ident) $(($name:ident $pid:tt $at:ident $get:tt $set:tt))*) => {
        { $(list_at!($at $name $pid $list);)* }
    };
}

macro_rules! list_at {
    (both $name:ident $pid:tt $list:ident) => { list_row!($name $pid $list) };
    (root $name:ident $pid:tt $list:ident) => { {} };
}

// The list leaves out itself and what every device has.
macro_rules! list_row {
    (SupportedParameters $pid:tt $list:ident) => { {} };
    (DeviceInfo $pid:tt $list:ident) => { {} };
    (SoftwareVersionLabel $pid:tt $list:ident) => { {} };
    (DmxStartAddress $pid:tt $list:ident) => { {} };
    (IdentifyDevice $pid:tt $list:ident) => { {} };
    ($name:ident $pid:tt $list:ident) => { $list.append(&u16::to_be_bytes($pid)) };
}

/// The PIDs that the device supports, in their order, beside those that every device does.
#[inline(always)]
#[tactic(auto, unfolding(crate::specs::Table::Rows::supported))]
pub(crate) fn supported(place: &Place<'_>, list: &mut Body)
    requires { list.old ≡ [] }
    ensures { list.new ≡ supported place.now }
{
    if place.own.is_some() {
        put_at_root(place.profile, list);
    } else {
        put_at_sub(place.profile, list);
    }
}

/// Those of the root.
// A call each for the root and the sub-devices: neither looks which of them it is for.
#[inline(never)]
#[tactic(auto, using(crate::proofs::Supported::plain))]
fn put_at_root(profile: &Profile, list: &mut Body)
    requires { list.old ≡ [] }
    ensures { list.new ≡ flat_map word_slots (supported_pids profile.now true) }
{
    if profile.is_plain() {
        put_root_table(list);
    } else {
        put_chosen(profile, true, list);
    }
}

/// Those of each sub-device.
#[inline(never)]
#[tactic(auto, using(crate::proofs::Supported::plain))]
fn put_at_sub(profile: &Profile, list: &mut Body)
    requires { list.old ≡ [] }
    ensures { list.new ≡ flat_map word_slots (supported_pids profile.now false) }
{
    if profile.is_plain() {
        put_sub_table(list);
    } else {
        put_chosen(profile, false, list);
    }
}

/// The PIDs of the table at the root.
#[tactic(auto, unfolding(crate::specs::Table::Rows::table_pids))]
fn put_root_table(list: &mut Body)
    requires { list.old ≡ [] }
    ensures { list.new ≡ flat_map word_slots (table_pids true) }
{
    // It is empty already. Here the compiler sees that, and looks for room no more.
    list.clear();
    rows!(root_rows!(list))
}

/// The PIDs of the table at a sub-device.
#[tactic(auto, unfolding(crate::specs::Table::Rows::table_pids))]
fn put_sub_table(list: &mut Body)
    requires { list.old ≡ [] }
    ensures { list.new ≡ flat_map word_slots (table_pids false) }
{
    list.clear();
    rows!(sub_rows!(list))
}
