//! What a SET writes.

ghost use Rattle.std.specs.Prelude.{◌≡◌, ◌↔◌, ◌==◌, false};
ghost use Rattle.rdm_table.specs.Table.Kinds.{pid_of};
ghost use Rattle.rdm_added.specs.Spot.{Spot};
ghost use Rattle.rdm_profile.specs.declared.value.Value.{Value};
ghost use Rattle.rdm_added.specs.Map.{update};
ghost use Rattle.rdm_added.specs.Views.State.{common_entries, own_entries, added_entries};
ghost use Rattle.rdm_table.specs.declared.kind.Verb.TheVariants.{Set};
ghost use Rattle.rdm_table.specs.Table.Rows.{command_of, row_of};
ghost use Rattle.rdm_table.specs.Table.Uses.{added_change, after_store};

use crate::Kind;
use crate::table::rows;
use rdm_device::columns::{added, changes, writes};
use rdm_device::{Argument, CommonValues, Kept, Profile, RootValues};

macro_rules! common_rows {
    (($kind:ident $value:ident $profile:ident $added:ident $common:ident) $(($name:ident $pid:tt $at:ident $get:tt $set:tt))*) => {
        match $kind {
            $(Kind::$name => write_common!($set $value $profile $added $common),)*
        }
    };
}

macro_rules! write_common {
    ((takes label $range:tt (common $field:ident)) $value:ident $profile:ident $added:ident $common:ident) => {
        $value.write_label(&mut $common.$field)
    };
    ((takes $form:ident $range:tt (common $field:ident)) $value:ident $profile:ident $added:ident $common:ident) => {
        match $value.$form() {
            Some(written) => writes::$form(&mut $common.$field, written),
            None => false,
        }
    };
    ((starts $form:ident $range:tt $slow:ident (common $field:ident)) $value:ident $profile:ident $added:ident $common:ident) => {
        match $value.$form() {
            Some(written) => writes::$form(&mut $common.$field, written),
            None => false,
        }
    };
    ((sets $form:ident $range:tt (none $own:ident) $reply:ident) $value:ident $profile:ident $added:ident $common:ident) => {
        false
    };
    ((sets $form:ident $range:tt ($change:ident $own:ident) $reply:ident) $value:ident $profile:ident $added:ident $common:ident) => {
        changes::$change($profile, $added, $common)
    };
    ($command:tt $value:ident $profile:ident $added:ident $common:ident) => {
        false
    };
}

macro_rules! own_rows {
    (($kind:ident $value:ident $profile:ident $own:ident) $(($name:ident $pid:tt $at:ident $get:tt $set:tt))*) => {
        match $kind {
            $(Kind::$name => write_own!($set $value $profile $own),)*
        }
    };
}

macro_rules! write_own {
    ((takes $form:ident $range:tt (own $field:ident)) $value:ident $profile:ident $own:ident) => {
        match $value.$form() {
            Some(written) => writes::$form(&mut $own.$field, written),
            None => false,
        }
    };
    ((starts $form:ident $range:tt $slow:ident (own $field:ident)) $value:ident $profile:ident $own:ident) => {
        match $value.$form() {
            Some(written) => writes::$form(&mut $own.$field, written),
            None => false,
        }
    };
    ((sets $form:ident $range:tt ($common:ident $change:ident) $reply:ident) $value:ident $profile:ident $own:ident) => {
        changes::$change($profile, $value, $own)
    };
    ($command:tt $value:ident $profile:ident $own:ident) => {
        false
    };
}

/// Writes what a SET writes of the values that every device keeps, at one that has these values of the maker's own parameters, and says
/// whether that changed one.
// Inlined, since a call would save and restore the registers of a SET, and of each sub-device in a SET of all.
#[inline(always)]
#[tactic(auto, unfolding(crate::specs::Table::Rows::row_of, crate::specs::Table::Rows::table, rdm_added::specs::Views::State::common_entries))]
pub fn store_common(
    kind: Kind,
    value: &Argument<'_>,
    profile: &Profile,
    added: &[Kept],
    common: &mut CommonValues,
) -> bool
    ensures after { (spot : Spot) → spot.profile ≡ profile.now → spot.added ≡ added_entries added.now
        → common_entries common.new ≡ after_store (row_of (pid_of kind)) spot value.now (common_entries common.old) }
    ensures same { (result ≡ false) ↔ (common_entries common.new ≡ common_entries common.old) }
{
    rows!(common_rows!(kind value profile added common))
}

/// Writes what a SET writes of the values that the root alone keeps, and says whether that changed one.
// Inlined, as `store_common`.
#[inline(always)]
#[tactic(auto, unfolding(crate::specs::Table::Rows::row_of, crate::specs::Table::Rows::table, rdm_added::specs::Views::State::own_entries), using(rdm_device::proofs::Sensors::sensors_stay))]
pub fn store_own(kind: Kind, value: &Argument<'_>, profile: &Profile, own: &mut RootValues) -> bool
    ensures after { (spot : Spot) → spot.profile ≡ profile.now → spot.added ≡ added_entries own.old.added.items
        → own_entries own.new ≡ after_store (row_of (pid_of kind)) spot value.now (own_entries own.old) }
    ensures same { (result ≡ false) ↔ (own_entries own.new ≡ own_entries own.old) }
    ensures added { own.new.added ≡ own.old.added }
{
    rows!(own_rows!(kind value profile own))
}

/// Writes what a SET of the table writes of the parameters that the maker adds, and says whether that changed a value.
#[inline(always)]
#[tactic(auto, using(crate::proofs::FactoryRows::set_back_by_factory, crate::proofs::FactoryRows::left_by_others))]
pub fn store_added(kind: Kind, profile: &Profile, own: &mut RootValues) -> bool
    ensures own { own_entries own.new ≡ own_entries own.old }
    ensures after { (spot : Spot) (value : Value) → spot.profile ≡ profile.now → spot.added ≡ added_entries own.old.added.items
        → added_entries own.new.added.items ≡ update (added_change (command_of (pid_of kind) Set) spot value) (added_entries own.old.added.items) }
    ensures same { (result ≡ false) ↔ (added_entries own.new.added.items ≡ added_entries own.old.added.items) }
{
    if is_factory_defaults(kind) {
        added::set_added_back(profile, own)
    } else {
        false
    }
}

/// Whether it is FACTORY_DEFAULTS.
#[inline(always)]
fn is_factory_defaults(kind: Kind) -> bool
    ensures { result ≡ (pid_of kind == 0x0090) }
{
    kind.pid() == Kind::FactoryDefaults.pid()
}
