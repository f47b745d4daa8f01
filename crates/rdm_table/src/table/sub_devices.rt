//! Commands at every sub-device.

ghost use Rattle.std.specs.Prelude.{◌≡◌, ◌↔◌, false, map, slice_set, slice_index_or, []};
ghost use Rattle.std.specs.List.{list_all};
ghost use Rattle.rdm_table.specs.declared.kind.Verb.TheVariants.{Set};
ghost use Rattle.rdm_table.specs.Table.Rows.{command_of};
ghost use Rattle.rdm_added.specs.Spot.{sub_device};
ghost use Rattle.rdm_table.specs.Table.Uses.{written, in_range_of};
ghost use Rattle.rdm_table.specs.Table.Kinds.{pid_of};
ghost use Rattle.rdm_added.specs.Views.State.{common_entries};

use crate::table::rows;
use crate::table::store::store_common;
use crate::table::within::is_in_range;
use crate::{Kind, Verb};
use rdm_device::{Argument, CommonValues, Place, Profile};

/// Whether a value is in range at every sub-device.
// A call, so that no other command makes room for its loop.
#[cold]
#[inline(never)]
pub fn all_in_range<'a>(
    profile: &'a Profile,
    kind: Kind,
    verb: Verb,
    subs: &'a [CommonValues],
    value: &Argument<'_>,
) -> bool
    ensures { result ≡ list_all (λ spot. in_range_of (command_of (pid_of kind) verb) spot value.now)
        (map (sub_device profile.now) (map common_entries subs.now)) }
{
    for common in subs {
        let place = Place::of_sub(profile, common);
        if !is_in_range(kind, verb, &place, value) {
            return false;
        }
    }
    true
}

macro_rules! each_rows {
    (($kind:ident $value:ident $profile:ident $subs:ident) $(($name:ident $pid:tt $at:ident $get:tt $set:tt))*) => {
        match $kind {
            $(Kind::$name => store_each_of!($name $set $value $profile $subs),)*
        }
    };
}

macro_rules! store_each_of {
    ($name:ident (takes label $range:tt $field:tt) $value:ident $profile:ident $subs:ident) => {
        store_rest(Kind::$name, $value, $profile, $subs)
    };
    ($name:ident (takes $form:ident $range:tt (common $field:ident)) $value:ident $profile:ident $subs:ident) => {
        store_all(Kind::$name, $value, $profile, $subs)
    };
    ($name:ident $set:tt $value:ident $profile:ident $subs:ident) => {
        store_rest(Kind::$name, $value, $profile, $subs)
    };
}

/// Carries out a SET at every sub-device, and says whether that changed a value of one.
// A call, so that the other commands don't make room for its loops. A number that every sub-device keeps has a loop of its own, so
// that the table is asked once and not for each of them.
#[inline(never)]
pub fn store_each(
    kind: Kind,
    value: &Argument<'_>,
    profile: &Profile,
    subs: &mut [CommonValues],
) -> bool
    ensures after { map common_entries subs.new
        ≡ map (λ entries. written (command_of (pid_of kind) Set) value.now (sub_device profile.now entries)) (map common_entries subs.old) }
    ensures same { (result ≡ false) ↔ (map common_entries subs.new ≡ map common_entries subs.old) }
{
    rows!(each_rows!(kind value profile subs))
}

/// Carries out a SET of another parameter at every sub-device, and says whether that changed a value of one.
// A call, so that the loops of numbers don't save the registers for it.
#[inline(never)]
fn store_rest(
    kind: Kind,
    value: &Argument<'_>,
    profile: &Profile,
    subs: &mut [CommonValues],
) -> bool
    ensures after { map common_entries subs.new
        ≡ map (λ entries. written (command_of (pid_of kind) Set) value.now (sub_device profile.now entries)) (map common_entries subs.old) }
    ensures same { (result ≡ false) ↔ (map common_entries subs.new ≡ map common_entries subs.old) }
{
    store_all(kind, value, profile, subs)
}

/// Carries out a SET at one sub-device after the other, and says whether that changed a value of one.
// Inlined, so that a caller that names the parameter has the loop for it alone.
#[inline(always)]
fn store_all(kind: Kind, value: &Argument<'_>, profile: &Profile, subs: &mut [CommonValues]) -> bool
    ensures after { map common_entries subs.new
        ≡ map (λ entries. written (command_of (pid_of kind) Set) value.now (sub_device profile.now entries)) (map common_entries subs.old) }
    ensures same { (result ≡ false) ↔ (map common_entries subs.new ≡ map common_entries subs.old) }
{
    let mut changed = false;
    for i in 0..subs.len() {
        let here = store_at(kind, value, profile, subs, i);
        changed = changed || here;
    }
    changed
}

/// Carries out a SET at one sub-device, if there is one at this place, and says whether that changed a value.
// Inlined, since a SET of all sub-devices would make a call for each.
#[inline(always)]
pub fn store_at(
    kind: Kind,
    value: &Argument<'_>,
    profile: &Profile,
    subs: &mut [CommonValues],
    index: usize,
) -> bool
    ensures after { map common_entries subs.new
        ≡ slice_set (map common_entries subs.old) index
        (written (command_of (pid_of kind) Set) value.now
        (sub_device profile.now (slice_index_or (map common_entries subs.old) index []))) }
    ensures same { (result ≡ false) ↔ (map common_entries subs.new ≡ map common_entries subs.old) }
{
    if index < subs.len() {
        store_common(kind, value, profile, &[], &mut subs[index])
    } else {
        false
    }
}
