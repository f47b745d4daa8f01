//! The commands of the parameters that a profile adds to the table, which the root alone has.

ghost use Rattle.std.specs.Prelude.{◌≡◌, ◌≢◌, ◌↔◌, ◌≤◌, ◌==◌, ◌&&◌, ◌||◌, List, [], Some, Ok, Err, IfOk, IfErr, IfSome, true, false, is_ok, find, length};
ghost use Rattle.std.specs.List.{list_any};
ghost use Rattle.std.specs.Option.{option_copied};
ghost use Rattle.rdm_frame.specs.declared.nack.Nack.TheVariants.{UnknownPid};
ghost use Rattle.rdm_table.specs.declared.kind.Verb.TheVariants.{Get, Set};
ghost use Rattle.rdm_commands.specs.declared.verdict.Verdict.TheVariants.{Reply, Refuse};
ghost use Rattle.rdm_profile.specs.declared.profile.own.Shape.TheVariants as shapes;
ghost use Rattle.rdm_added.specs.Added.{has_makers_pid, is_pid_of};
ghost use Rattle.rdm_profile.specs.Forms.{has_length, value_in};
ghost use Rattle.rdm_added.specs.Numbers.{sets_number};
ghost use Rattle.rdm_profile.specs.OwnParameters.{form_of};
ghost use Rattle.rdm_added.specs.Map.{value_at};
ghost use Rattle.rdm_added.specs.Locking.{is_set_locked};
ghost use Rattle.rdm_added.specs.Spot.{Spot};
ghost use Rattle.rdm_added.specs.Views.State.{own_entries, added_entries};
ghost use Rattle.rdm_commands.specs.Commands.Added.{row_here, handed_with, handed_here, reply_of, reply_here, after_with, after_here};
ghost use Rattle.rdm_commands.specs.Commands.Commands.{root_spot, is_read_only, open_to, got, answer_to_set, after_set};
ghost use Rattle.rdm_profile.specs.declared.profile.own.ParameterDef.{ParameterDef};
ghost use Rattle.rdm_table.specs.Table.Rows.{row_of, is_left_out, description_row, added_row, gets_added, shows_added};
ghost use Rattle.rdm_table.specs.Table.Uses.{access};

use super::Devices;
use super::blocks::DMX_BLOCK_ADDRESS;
use rdm_device::columns::{added, forms};
use rdm_device::{Argument, Kept, ParameterDef, Place, Profile, RootValues, Shape};
use rdm_frame::standard::PARAMETER_DESCRIPTION;
use rdm_frame::{Body, Nack};

/// PRESET_STATUS (E1.37-1).
const PRESET_STATUS: u16 = 0x1042;

impl Devices {
    /// What is kept at the root of a parameter that the profile adds, also of one that has no GET: an order. `None` if the profile adds
    /// none with this PID.
    pub fn own_value(&self, pid: u16) -> Option<&[u8]>
        ensures value { option_copied result ≡ value_at self.now.added pid }
        ensures few { IfSome result (λ bytes. length bytes.now ≤ 32) }
    {
        added::value_of(self.own.added.as_slice(), pid)
    }

    /// What a GET of the root answers of a parameter that the table doesn't have.
    // A call, so that the commands of the table don't make room for it.
    #[cold]
    #[inline(never)]
    pub(super) fn get_added(&self, pid: u16, data: &[u8], body: &mut Body) -> Result<(), Nack>
        requires empty { body.old ≡ [] }
        requires stays { is_left_out self.now.profile pid ≡ false }
        requires unknown { access (row_of pid) true Get ≡ Err UnknownPid }
        ensures ok { IfOk result (λ u. got self.now 0 pid data.now ≡ Reply body.new) }
        ensures err { IfErr result (λ nack. got self.now 0 pid data.now ≡ Refuse nack) }
        ensures empty { result ≢ Ok tt → body.new ≡ [] }
    {
        if pid == DMX_BLOCK_ADDRESS {
            return self.get_block(data, body);
        }
        self.get_at_root(pid, data, body)
    }

    /// What a SET of the root changes by a parameter that the table doesn't have, and whether that is another value.
    // A call, as that for a GET.
    #[cold]
    #[inline(never)]
    #[tactic(auto, using(crate::proofs::BlockCommands::added_set, crate::proofs::BlockCommands::added_after))]
    pub(super) fn set_added(&mut self, pid: u16, data: &[u8]) -> Result<bool, Nack>
        requires stays { is_left_out self.old.profile pid ≡ false }
        requires unknown { access (row_of pid) true Set ≡ Err UnknownPid }
        ensures ok { IfOk result (λ differs. answer_to_set self.old 0 pid data.now ≡ Reply []) }
        ensures err { IfErr result (λ nack. answer_to_set self.old 0 pid data.now ≡ Refuse nack) }
        ensures after { self.new ≡ after_set self.old 0 pid data.now }
        ensures same { IfOk result (λ differs. (differs ≡ false) ↔ (self.new ≡ self.old)) }
        ensures kept { IfErr result (λ nack. self.new ≡ self.old) }
    {
        if pid == DMX_BLOCK_ADDRESS {
            return self.set_block(data);
        }
        self.set_at_root(pid, data)
    }

    /// What a GET of the root answers, by what the profile adds.
    #[inline(always)]
    #[tactic(auto, using(crate::proofs::AddedRows::description_here, crate::proofs::AddedRows::parameter_here, crate::proofs::AddedRows::nothing_here))]
    pub(super) fn get_at_root(&self, pid: u16, data: &[u8], body: &mut Body) -> Result<(), Nack>
        requires { body.old ≡ [] }
        ensures ok { IfOk result (λ u. reply_here (root_spot self.now) pid (row_here self.now.profile pid) Get data.now ≡ Ok body.new) }
        ensures err { IfErr result (λ nack. reply_here (root_spot self.now) pid (row_here self.now.profile pid) Get data.now ≡ Err nack) }
        ensures empty { result ≢ Ok tt → body.new ≡ [] }
    {
        if is_description(&self.profile, pid) {
            return get_description(&self.root_place(), data, body);
        }
        match parameter_of(&self.profile, pid) {
            Some(def) => self.get_parameter(def, data, body),
            None => Err(Nack::UnknownPid),
        }
    }

    /// What a parameter that the maker adds replies to a GET.
    #[inline(always)]
    fn get_parameter(&self, def: &ParameterDef, data: &[u8], body: &mut Body) -> Result<(), Nack>
        requires { body.old ≡ [] }
        ensures ok { IfOk result (λ u. reply_here (root_spot self.now) def.now.pid (Some (added_row def.now)) Get data.now ≡ Ok body.new) }
        ensures err { IfErr result (λ nack. reply_here (root_spot self.now) def.now.pid (Some (added_row def.now)) Get data.now ≡ Err nack) }
        ensures empty { result ≢ Ok tt → body.new ≡ [] }
    {
        if !added::has_get(def.rights) {
            return Err(Nack::UnsupportedCommandClass);
        }
        self.get_by_shape(def.shape, def, data, body)
    }

    /// What such a parameter replies whose data have this shape.
    // A place for each that needs one: most replies are what is kept.
    #[inline(always)]
    fn get_by_shape(
        &self,
        shape: Shape,
        def: &ParameterDef,
        data: &[u8],
        body: &mut Body,
    ) -> Result<(), Nack>
        requires { body.old ≡ [] }
        ensures ok { IfOk result (λ u. reply_of (root_spot self.now) (gets_added shape def.now def.now.pid) data.now ≡ Ok body.new) }
        ensures err { IfErr result (λ nack. reply_of (root_spot self.now) (gets_added shape def.now def.now.pid) data.now ≡ Err nack) }
        ensures empty { result ≢ Ok tt → body.new ≡ [] }
    {
        match shape {
            Shape::Choice | Shape::Lock => get_choice(&self.root_place(), def, data, body),
            Shape::Names | Shape::Rates => get_name(&self.root_place(), def, data, body),
            Shape::Scenes => get_scene(&self.root_place(), def, data, body),
            Shape::Byte
            | Shape::Word
            | Shape::Long
            | Shape::SignedByte
            | Shape::SignedWord
            | Shape::SignedLong
            | Shape::Text
            | Shape::Bits(_)
            | Shape::Slots(_)
            | Shape::Pin
            | Shape::Block => get_kept(&self.root_place(), def, data, body),
        }
    }

    /// What a SET of the root changes, by what the profile adds, and whether that is another value.
    #[inline(always)]
    #[tactic(auto, using(crate::proofs::AddedRows::description_here, crate::proofs::AddedRows::parameter_here, crate::proofs::AddedRows::nothing_here))]
    fn set_at_root(&mut self, pid: u16, data: &[u8]) -> Result<bool, Nack>
        ensures ok { IfOk result (λ differs. is_ok (handed_here (root_spot self.old) pid (row_here self.old.profile pid) Set data.now) ≡ true) }
        ensures err { IfErr result (λ nack. handed_here (root_spot self.old) pid (row_here self.old.profile pid) Set data.now ≡ Err nack) }
        ensures after { self.new ≡ record self.old { added = after_here (root_spot self.old) pid (row_here self.old.profile pid) data.now } }
        ensures same { IfOk result (λ differs. (differs ≡ false) ↔ (self.new ≡ self.old)) }
    {
        let profile = &self.profile;
        if is_description(profile, pid) {
            return Err(Nack::UnsupportedCommandClass);
        }
        match parameter_of(profile, pid) {
            Some(def) => {
                let values = self.own.added.as_slice();
                let protected = is_protected(profile, values, pid, def, data);
                let no_pin = added::is_no_pin(pid, data);
                set_parameter(def, protected, no_pin, data, &mut self.own)
            }
            None => Err(Nack::UnknownPid),
        }
    }
}

/// Whether the PID is that of PARAMETER_DESCRIPTION, and the profile adds it.
fn is_description(profile: &Profile, pid: u16) -> bool
    ensures { result ≡ ((0x0051 == pid) && list_any has_makers_pid profile.now.particulars.own) }
{
    PARAMETER_DESCRIPTION == pid && added::has_makers(profile.particulars.own())
}

/// The parameter that the profile adds with this PID.
pub(super) fn parameter_of(profile: &Profile, pid: u16) -> Option<&ParameterDef>
    ensures { option_copied result ≡ find (is_pid_of pid) profile.now.particulars.own }
{
    added::parameter_of(profile.particulars.own(), pid)
}

/// Whether what a SET of this parameter, which the profile adds with this PID, would write can only be read, or is locked.
pub(super) fn is_protected(
    profile: &Profile,
    values: &[Kept],
    pid: u16,
    def: &ParameterDef,
    data: &[u8],
) -> bool
    requires { find (is_pid_of pid) profile.now.particulars.own ≡ Some def.now }
    ensures { result ≡ (is_read_only profile.now.particulars.own pid data.now || is_set_locked profile.now.particulars.locks (added_entries values.now) pid) }
{
    is_read_only(pid, def, data) || added::is_set_locked(profile, values, pid)
}

/// Whether what a SET of this parameter, which has this PID, would write can only be read, as a scene of PRESET_STATUS.
fn is_read_only(pid: u16, def: &ParameterDef, data: &[u8]) -> bool
    ensures { (ds : List ParameterDef) → find (is_pid_of pid) ds ≡ Some def.now → result ≡ is_read_only ds pid data.now }
{
    pid == PRESET_STATUS && added::is_protected_scene(def, data)
}

/// What describes a parameter that the maker adds.
#[cold]
#[inline(never)]
fn get_description(place: &Place<'_>, data: &[u8], body: &mut Body) -> Result<(), Nack>
    requires { body.old ≡ [] }
    ensures ok { IfOk result (λ u. reply_here place.now 0x0051 (Some description_row) Get data.now ≡ Ok body.new) }
    ensures err { IfErr result (λ nack. reply_here place.now 0x0051 (Some description_row) Get data.now ≡ Err nack) }
    ensures empty { result ≢ Ok tt → body.new ≡ [] }
{
    let Some(value) = forms::word(data) else {
        return Err(Nack::FormatError);
    };
    if !added::a_makers_pid(place, &value) {
        return Err(Nack::DataOutOfRange);
    }
    added::described(place, &value, body);
    Ok(())
}

/// What is kept of it.
#[inline(always)]
fn get_kept(place: &Place<'_>, def: &ParameterDef, data: &[u8], body: &mut Body) -> Result<(), Nack>
    requires { body.old ≡ [] }
    ensures ok { IfOk result (λ u. reply_of place.now (shows_added def.now.pid) data.now ≡ Ok body.new) }
    ensures err { IfErr result (λ nack. reply_of place.now (shows_added def.now.pid) data.now ≡ Err nack) }
    ensures empty { result ≢ Ok tt → body.new ≡ [] }
{
    if !data.is_empty() {
        return Err(Nack::FormatError);
    }
    added::write_added(place, def.pid, body);
    Ok(())
}

/// The number that is chosen, and the greatest that can be.
#[cold]
#[inline(never)]
fn get_choice(
    place: &Place<'_>,
    def: &ParameterDef,
    data: &[u8],
    body: &mut Body,
) -> Result<(), Nack>
    requires { body.old ≡ [] }
    ensures ok { IfOk result (λ u. reply_of place.now (gets_added shapes.Choice def.now def.now.pid) data.now ≡ Ok body.new) }
    ensures err { IfErr result (λ nack. reply_of place.now (gets_added shapes.Choice def.now def.now.pid) data.now ≡ Err nack) }
    ensures empty { result ≢ Ok tt → body.new ≡ [] }
{
    if !data.is_empty() {
        return Err(Nack::FormatError);
    }
    added::choice_shown(place, def, body);
    Ok(())
}

/// What one of the things is called of which one is chosen.
#[cold]
#[inline(never)]
fn get_name(place: &Place<'_>, def: &ParameterDef, data: &[u8], body: &mut Body) -> Result<(), Nack>
    requires { body.old ≡ [] }
    ensures ok { IfOk result (λ u. reply_of place.now (gets_added shapes.Names def.now def.now.pid) data.now ≡ Ok body.new) }
    ensures err { IfErr result (λ nack. reply_of place.now (gets_added shapes.Names def.now def.now.pid) data.now ≡ Err nack) }
    ensures empty { result ≢ Ok tt → body.new ≡ [] }
{
    let Some(number) = forms::byte(data) else {
        return Err(Nack::FormatError);
    };
    if !added::a_name(place, def, &number) {
        return Err(Nack::DataOutOfRange);
    }
    added::name_shown(place, def, &number, body);
    Ok(())
}

/// What is kept of a scene.
#[cold]
#[inline(never)]
fn get_scene(
    place: &Place<'_>,
    def: &ParameterDef,
    data: &[u8],
    body: &mut Body,
) -> Result<(), Nack>
    requires { body.old ≡ [] }
    ensures ok { IfOk result (λ u. reply_of place.now (gets_added shapes.Scenes def.now def.now.pid) data.now ≡ Ok body.new) }
    ensures err { IfErr result (λ nack. reply_of place.now (gets_added shapes.Scenes def.now def.now.pid) data.now ≡ Err nack) }
    ensures empty { result ≢ Ok tt → body.new ≡ [] }
{
    let Some(number) = forms::word(data) else {
        return Err(Nack::FormatError);
    };
    if !added::a_scene(def, &number) {
        return Err(Nack::DataOutOfRange);
    }
    added::scene_shown(place, def, &number, body);
    Ok(())
}

/// Keeps what the data of a SET stand for, if the parameter takes that, and says whether it is another value.
#[inline(always)]
fn set_parameter(
    def: &ParameterDef,
    protected: bool,
    no_pin: bool,
    data: &[u8],
    own: &mut RootValues,
) -> Result<bool, Nack>
    ensures ok { IfOk result (λ differs. (spot : Spot) → spot.added ≡ added_entries own.old.added.items → is_ok (handed_with (open_to protected no_pin) spot (Some (added_row def.now)) Set data.now) ≡ true) }
    ensures err { IfErr result (λ nack. (spot : Spot) → spot.added ≡ added_entries own.old.added.items → handed_with (open_to protected no_pin) spot (Some (added_row def.now)) Set data.now ≡ Err nack) }
    ensures own { own_entries own.new ≡ own_entries own.old }
    ensures added { (spot : Spot) → spot.added ≡ added_entries own.old.added.items
        → added_entries own.new.added.items ≡ after_with (open_to protected no_pin) spot (Some (added_row def.now)) data.now }
    ensures same { IfOk result (λ differs. (differs ≡ false) ↔ (added_entries own.new.added.items ≡ added_entries own.old.added.items)) }
{
    if added::sets_number(def) {
        return match take_number(def, protected, no_pin, data) {
            Ok(()) => Ok(added::store_number(def, data, own)),
            Err(nack) => Err(nack),
        };
    }
    match take_set(def, protected, no_pin, data, own) {
        Ok(value) => Ok(added::store_set(def, &value, own)),
        Err(nack) => Err(nack),
    }
}

/// Whether the data of a SET are a number that the parameter takes, or the first reason to refuse it.
// Apart from `take_set`, since most SETs hand in a number, and the place of any other value costs each of its steps.
#[inline(always)]
fn take_number(def: &ParameterDef, protected: bool, no_pin: bool, data: &[u8]) -> Result<(), Nack>
    requires { sets_number def.now.rights def.now.shape ≡ true }
    ensures ok { IfOk result (λ u. (spot : Spot) → handed_with (open_to protected no_pin) spot (Some (added_row def.now)) Set data.now ≡ Ok (value_in (form_of def.now.shape) data.now)) }
    ensures err { IfErr result (λ nack. (spot : Spot) → handed_with (open_to protected no_pin) spot (Some (added_row def.now)) Set data.now ≡ Err nack) }
    ensures long { IfOk result (λ u. has_length (form_of def.now.shape) (length data.now) ≡ true) }
{
    if protected {
        return Err(Nack::WriteProtect);
    }
    if no_pin {
        return Err(Nack::FormatError);
    }
    let Some(number) = added::number_said(def.shape, data) else {
        return Err(Nack::FormatError);
    };
    if !added::lies(def, number) {
        return Err(Nack::DataOutOfRange);
    }
    Ok(())
}

/// What the data of a SET stand for, if the parameter takes that, or the first reason to refuse it.
#[inline(always)]
pub(super) fn take_set<'a>(
    def: &ParameterDef,
    protected: bool,
    no_pin: bool,
    data: &'a [u8],
    own: &RootValues,
) -> Result<Argument<'a>, Nack>
    ensures { (spot : Spot) → spot.added ≡ added_entries own.now.added.items → result ≡ handed_with (open_to protected no_pin) spot (Some (added_row def.now)) Set data.now }
{
    if !added::has_set(def.rights) {
        return Err(Nack::UnsupportedCommandClass);
    }
    if protected {
        return Err(Nack::WriteProtect);
    }
    if no_pin {
        return Err(Nack::FormatError);
    }
    let Some(value) = added::read_set(def, data) else {
        return Err(Nack::FormatError);
    };
    if !added::takes(def, &value, own) {
        return Err(Nack::DataOutOfRange);
    }
    Ok(value)
}
