//! A root device with its sub-devices, and the commands to them.

ghost use Rattle.std.specs.Prelude.{◌&&◌, true, [], Some, None, IfSome, false, length, ◌≡◌, ◌≢◌, ◌↔◌, IfOk, IfErr};
ghost use Rattle.std.specs.Option.{option_copied, option_map_or};
ghost use Rattle.rdm_table.specs.declared.kind.Verb.TheVariants.{Set};
ghost use Rattle.rdm_commands.specs.declared.verdict.Verdict.TheVariants.{Refuse};
ghost use Rattle.rdm_commands.specs.Commands.Commands.{got, got_by_row, answer_to_set, answer_by_row, after_set, after_by_row, in_range, answered, work, addressed, carried_out, reply_at};
ghost use Rattle.rdm_table.specs.Table.Rows.{command_of, is_left_out};
ghost use Rattle.rdm_commands.specs.Commands.Changed.{change_of};
ghost use Rattle.rdm_table.specs.Table.Kinds.{pid_of};
ghost use Rattle.rdm_added.specs.Spot.{Spot};
ghost use Rattle.rdm_profile.specs.Values.{byte_or_0};
ghost use Rattle.rdm_profile.specs.declared.value.Value.{Value};
ghost use Rattle.rdm_commands.specs.Views.Verdicts.{verdict_with, NamesItsJob};
ghost use Rattle.rdm_added.specs.Locking.{is_set_locked};
ghost use Rattle.rdm_table.specs.Table.Uses.{way_of, way_at, reply};
ghost use Rattle.rdm_commands.specs.Jobs.Asks.{ask_of};

mod added;
mod addressing;
mod blocks;
mod commit;
mod panel;
mod placing;
mod plain;
mod saving;
mod slow;
mod starting;
mod taking;
mod thresholds;

use crate::{Answer, Ask, Changed, Verdict, Work};
pub(crate) use blocks::DMX_BLOCK_ADDRESS;
use rdm_device::columns::added as own_parameters;
use rdm_device::{Argument, CommonValues, MuteReply, Place, Profile, RootValues, Value};
use rdm_frame::standard::SUB_DEVICE_ALL_CALL;
use rdm_frame::{Body, Nack};
use rdm_table::{
    Found, Kind, Verb, Way, find, is_taken_at, read_form, reply_into, store_added, store_at,
    store_common, store_each, store_own,
};
use std::marker::Model;
use thiserror::Error;

/// Why devices can't be made.
#[derive(Clone, Copy, Debug, PartialEq, Eq, Error)]
pub enum NewError {
    /// Out of memory.
    #[error("out of memory")]
    OutOfMemory,
    /// The profile has more sub-devices than there can be.
    #[error("too many sub-devices")]
    TooManySubs,
    /// The profile breaks a rule.
    #[error("bad profile")]
    BadProfile,
}

/// A root device with its sub-devices, and the values of their parameters.
///
/// A contract sees the profile, and the values of each device by keys.
#[derive(Debug, Drop)]
pub struct Devices {
    // In its place once and for all: the profile is large, and devices are handed on by value.
    profile: Box<Profile>,
    root: CommonValues,
    own: RootValues,
    subs: Vec<CommonValues>,
}

impl Model for Devices {
    ghost use Rattle.rdm_added.specs.Parameters.{Parameters};

    ghost Value = { Parameters };

    ghost use Rattle.std.specs.Prelude.{◌++◌, map};
    ghost use Rattle.rdm_added.specs.Views.State.{common_entries, own_entries, added_entries};

    ghost view = { λ d. record { profile = d.profile.value; root = common_entries d.root ++ own_entries d.own; added = added_entries d.own.added.items; subs = map common_entries d.subs.items } };
}

impl Devices {
    /// How many sub-devices there are (E1.20 section 9).
    pub fn sub_devices(&self) -> usize
        ensures { result ≡ length self.now.subs }
    {
        self.subs.len()
    }

    /// What the profile says that is told when it is muted or un-muted (E1.20 section 7.6).
    pub fn mute_reply(&self) -> MuteReply
        ensures { result ≡ self.now.profile.particulars.mute_reply }
    {
        self.profile.particulars.mute_reply()
    }

    /// What a GET answers: the value, the job that it starts, or the first reason to reject it.
    pub fn get(&self, sub: u16, pid: u16, data: &[u8]) -> Verdict
        ensures { result ≡ got self.now sub pid data.now }
    {
        let mut body = Body::new();
        let answer = self.get_into(sub, pid, data, &mut body);
        answer.with(body)
    }

    /// What a GET answers, as `get`, with the data of the reply in `body`, and none if it isn't `Done`. What stood
    /// there before is gone.
    // Inlined into each caller, since a call would hand the argument on through memory.
    #[inline(always)]
    pub fn get_into(&self, sub: u16, pid: u16, data: &[u8], body: &mut Body) -> Answer
        ensures answer { verdict_with result body.new ≡ got self.now sub pid data.now }
        ensures job { NamesItsJob self.now.profile result }
        ensures empty { result ≢ Answer.Done → body.new ≡ [] }
    {
        body.clear();
        match self.try_get(sub, pid, data, body) {
            Ok(answer) => answer,
            Err(nack) => Answer::Refused(nack),
        }
    }

    /// What a SET answers. One that is rejected, or that starts a job, changes nothing.
    ///
    /// With sub-device 65535 it is for every sub-device and not for the root, and is rejected unless all of them can
    /// take it.
    pub fn set(&mut self, sub: u16, pid: u16, data: &[u8]) -> Verdict
        ensures answer { result ≡ answer_to_set self.old sub pid data.now }
        ensures after { self.new ≡ after_set self.old sub pid data.now }
    {
        let mut body = Body::new();
        let (answer, _) = self.set_into(sub, pid, data, &mut body);
        answer.with(body)
    }

    /// What a SET answers, as `set`, with the data of the reply in `body`, and none if it isn't `Done`. What stood
    /// there before is gone. It also says what the SET changed, and that is `None` if every value is what it was.
    pub fn set_into(
        &mut self,
        sub: u16,
        pid: u16,
        data: &[u8],
        body: &mut Body,
    ) -> (Answer, Option<Changed>)
        ensures answer { verdict_with result.0 body.new ≡ answer_to_set self.old sub pid data.now }
        ensures job { NamesItsJob self.old.profile result.0 }
        ensures empty { result.0 ≢ Answer.Done → body.new ≡ [] }
        ensures after { self.new ≡ after_set self.old sub pid data.now }
        ensures unchanged { (result.1 ≡ None) ↔ (self.new ≡ self.old) }
        ensures what { IfSome result.1 (λ c. c ≡ change_of sub pid) }
    {
        body.clear();
        let mut changed = false;
        let answer = match self.try_set(sub, pid, data, body, &mut changed) {
            Ok(answer) => answer,
            Err(nack) => Answer::Refused(nack),
        };
        (answer, Changed::told(changed, sub, pid))
    }

    /// Whether a value is in the range of a command at each device that it is for. It isn't if there is no such
    /// device, parameter or command, or if the value has another form.
    #[tactic(auto, unfolding(crate::specs::Commands::Commands::in_range), using(crate::proofs::OtherForms::never_in_range))]
    pub fn in_range(&self, sub: u16, kind: Kind, verb: Verb, value: &Value) -> bool
        ensures { result ≡ in_range self.now sub kind verb value.now }
    {
        if self.profile.lacks(kind.pid()) {
            return false;
        }
        let Some(argument) = Argument::of(value) else {
            return false;
        };
        let Some(place) = self.first_place(sub, verb) else {
            return false;
        };
        find(kind.pid(), sub == 0, verb).is_ok()
            && self.is_in_range_at(sub, kind, verb, &place, &argument)
    }

    /// Whether the devices lack the parameter, since the profile leaves it out.
    #[inline(always)]
    fn lacks(&self, pid: u16) -> bool
        ensures { result ≡ is_left_out self.now.profile pid }
    {
        self.profile.lacks(pid)
    }

    /// Whether the lock state keeps a parameter from being set.
    #[inline(always)]
    fn is_locked(&self, pid: u16) -> bool
        ensures { result ≡ is_set_locked self.now.profile.particulars.locks self.now.added pid }
    {
        own_parameters::is_set_locked(&self.profile, self.own.added.as_slice(), pid)
    }

    /// What a GET answers, or the first reason to reject it.
    // This and its steps are inlined, since a call would hand the argument on through memory.
    #[inline(always)]
    #[tactic(auto, unfolding(crate::specs::Commands::Commands::got_by_row, crate::specs::Commands::Commands::accepted), using(crate::proofs::ReadData::unread, crate::proofs::ReadData::out_of_range, crate::proofs::ReadData::one_taken, crate::proofs::BlockCommands::tabled_got, crate::proofs::AddedCommands::tabled, crate::proofs::AddedCommands::no_device_get, crate::proofs::AddedCommands::lacking_get, crate::proofs::AddedCommands::table_get))]
    fn try_get(&self, sub: u16, pid: u16, data: &[u8], body: &mut Body) -> Result<Answer, Nack>
        requires { body.old ≡ [] }
        ensures ok { IfOk result (λ answer. verdict_with answer body.new ≡ got self.now sub pid data.now) }
        ensures err { IfErr result (λ nack. got self.now sub pid data.now ≡ Refuse nack) }
        ensures job { IfOk result (λ answer. NamesItsJob self.now.profile answer) }
        ensures empty { result ≢ Ok Answer.Done → body.new ≡ [] }
    {
        if !self.has_device(sub) {
            return Err(Nack::SubDeviceOutOfRange);
        }
        if self.lacks(pid) {
            return Err(Nack::UnknownPid);
        }
        let found = match find(pid, sub == 0, Verb::Get) {
            Ok(found) => found,
            Err(Nack::UnknownPid) => {
                // Before the call, which costs more than the tests.
                if self.profile.particulars.own().is_empty() {
                    return Err(Nack::UnknownPid);
                }
                if sub != 0 {
                    return Err(Nack::UnknownPid);
                }
                return match self.get_added(pid, data, body) {
                    Ok(()) => Ok(Answer::Done),
                    Err(nack) => Err(nack),
                };
            }
            Err(nack) => return Err(nack),
        };
        if found.is_plain_get() {
            return self.get_plain(sub, found.kind, data, body);
        }
        let place = self.place_of(sub);
        let value = read_form(Verb::Get, found, data)?;
        if !is_taken_at(Verb::Get, found, &place, &value) {
            return Err(Nack::DataOutOfRange);
        }
        let profile = &self.profile;
        let place = Some(&place);
        Ok(answer(profile, sub, Verb::Get, found, place, &value, body))
    }

    /// What a SET answers, or the first reason to reject it. `changed` tells whether it changed a value.
    #[inline(always)]
    #[tactic(auto, unfolding(crate::specs::Commands::Commands::answer_by_row, crate::specs::Commands::Commands::after_by_row, crate::specs::Commands::Commands::accepted), using(crate::proofs::ReadData::unread, crate::proofs::BlockCommands::tabled_answer, crate::proofs::BlockCommands::tabled_after, crate::proofs::AddedCommands::tabled, crate::proofs::AddedCommands::tabled_slow, crate::proofs::AddedCommands::tabled_free, crate::proofs::AddedCommands::locked_set, crate::proofs::AddedCommands::locked_leaves, crate::proofs::AddedCommands::no_device_set, crate::proofs::AddedCommands::no_device_leaves, crate::proofs::AddedCommands::lacking_set, crate::proofs::AddedCommands::lacking_leaves, crate::proofs::AddedCommands::table_set, crate::proofs::AddedCommands::table_leaves))]
    fn try_set(
        &mut self,
        sub: u16,
        pid: u16,
        data: &[u8],
        body: &mut Body,
        changed: &mut bool,
    ) -> Result<Answer, Nack>
        requires body { body.old ≡ [] }
        requires changed { changed.old ≡ false }
        ensures ok { IfOk result (λ answer. verdict_with answer body.new ≡ answer_to_set self.old sub pid data.now) }
        ensures err { IfErr result (λ nack. answer_to_set self.old sub pid data.now ≡ Refuse nack) }
        ensures job { IfOk result (λ answer. NamesItsJob self.old.profile answer) }
        ensures empty { result ≢ Ok Answer.Done → body.new ≡ [] }
        ensures after { self.new ≡ after_set self.old sub pid data.now }
        ensures same { (changed.new ≡ false) ↔ (self.new ≡ self.old) }
    {
        let place = self
            .first_place(sub, Verb::Set)
            .ok_or(Nack::SubDeviceOutOfRange)?;
        if self.lacks(pid) {
            return Err(Nack::UnknownPid);
        }
        let found = match find(pid, sub == 0, Verb::Set) {
            Ok(found) => found,
            Err(Nack::UnknownPid) => {
                if self.profile.particulars.own().is_empty() {
                    return Err(Nack::UnknownPid);
                }
                if sub != 0 {
                    return Err(Nack::UnknownPid);
                }
                return match self.set_added(pid, data) {
                    Ok(differs) => {
                        *changed = differs;
                        Ok(Answer::Done)
                    }
                    Err(nack) => Err(nack),
                };
            }
            Err(nack) => return Err(nack),
        };
        // Apart from the others: what it hands in isn't kept for a write, and no lock keeps it from being done.
        if found.way.is_by_job() {
            let value = read_form(Verb::Set, found, data)?;
            self.can_take(sub, Verb::Set, found, &place, data, &value)?;
            return Ok(self.answer_to_set(sub, found, &value, body));
        }
        if self.is_locked(pid) {
            return Err(Nack::WriteProtect);
        }
        let value = read_form(Verb::Set, found, data)?;
        self.can_take(sub, Verb::Set, found, &place, data, &value)?;
        *changed = self.carry_out(sub, found.kind, &value);
        Ok(self.answer_to_set(sub, found, &value, body))
    }

    /// What an accepted SET answers, after it was carried out at the devices that it is for.
    #[inline(always)]
    #[tactic(auto, using(crate::proofs::Silent::silent_at))]
    fn answer_to_set(&self, sub: u16, found: Found, value: &Argument<'_>, body: &mut Body) -> Answer
        requires empty { body.old ≡ [] }
        requires way { found.way ≡ way_of (command_of (pid_of found.kind) Set) }
        requires silent { found.has_reply ≡ false → (spot : Spot) (value : Value) → reply (command_of (pid_of found.kind) Set) spot value ≡ [] }
        ensures answer { verdict_with result body.new ≡ answered (way_at self.now.profile (command_of (pid_of found.kind) Set) Set value.now)
            (reply_at (command_of (pid_of found.kind) Set) (addressed self.now sub Set) value.now)
            (work sub (pid_of found.kind) Set value.now) (ask_of (byte_or_0 value.now)) }
        ensures job { NamesItsJob self.now.profile result }
        ensures empty { result ≢ Answer.Done → body.new ≡ [] }
    {
        let profile = &self.profile;
        // Few replies tell what the write left, and the write had to end the borrow of the first place.
        if !found.has_reply {
            return answer(profile, sub, Verb::Set, found, None, value, body);
        }
        let place = self.first_place(sub, Verb::Set);
        answer(profile, sub, Verb::Set, found, place.as_ref(), value, body)
    }

    /// Carries out a SET at the devices that it is for, and says whether that changed a value.
    // Inlined, since a call would save and restore the registers of a SET.
    #[inline(always)]
    #[tactic(auto, using(rdm_added::proofs::Maps::update_append, rdm_table::proofs::Changes::root_parts))]
    fn carry_out(&mut self, sub: u16, kind: Kind, value: &Argument<'_>) -> bool
        ensures after { self.new ≡ carried_out self.old sub (command_of (pid_of kind) Set) value.now }
        ensures same { (result ≡ false) ↔ (self.new ≡ self.old) }
    {
        let profile = &self.profile;
        if sub == 0 {
            let common = store_common(
                kind,
                value,
                profile,
                self.own.added.as_slice(),
                &mut self.root,
            );
            let own = store_own(kind, value, profile, &mut self.own);
            let added = store_added(kind, profile, &mut self.own);
            common || own || added
        } else if sub == SUB_DEVICE_ALL_CALL {
            store_each(kind, value, profile, &mut self.subs)
        } else {
            store_at(kind, value, profile, &mut self.subs, sub as usize - 1)
        }
    }
}

/// What an accepted command answers, if this is the first device that it is for.
#[inline(always)]
fn answer(
    profile: &Profile,
    sub: u16,
    verb: Verb,
    found: Found,
    place: Option<&Place<'_>>,
    value: &Argument<'_>,
    body: &mut Body,
) -> Answer
    requires empty { body.old ≡ [] }
    requires way { found.way ≡ way_of (command_of (pid_of found.kind) verb) }
    ensures answer { verdict_with result body.new ≡ answered (way_at profile.now (command_of (pid_of found.kind) verb) verb value.now)
        (option_map_or (λ spot. reply (command_of (pid_of found.kind) verb) spot value.now) (option_copied place.entry) [])
        (work sub (pid_of found.kind) verb value.now) (ask_of (byte_or_0 value.now)) }
    ensures job { NamesItsJob profile.now result }
    ensures empty { result ≢ Answer.Done → body.new ≡ [] }
{
    let arg = value.byte().unwrap_or(0);
    match found.way.at(profile, verb, arg) {
        Way::AtOnce => {
            if let Some(place) = place {
                reply_into(found.kind, verb, place, value, body);
            }
            Answer::Done
        }
        Way::ByJob(slow) => {
            let (worker, estimate) = slow
                .started_by(verb)
                .terms(&profile.workers, &profile.particulars.estimates());
            Answer::Starts {
                work: Work {
                    sub,
                    pid: found.kind.pid(),
                    verb,
                    arg,
                },
                worker,
                estimate,
            }
        }
        Way::FromQueue => Answer::Queues(Ask::of(arg)),
        Way::FromStatus => Answer::Statuses(Ask::of(arg)),
        Way::Clears => Answer::Clears,
    }
}
