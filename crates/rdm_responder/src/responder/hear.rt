//! What is answered to a request: a frame that was heard.

ghost use Rattle.std.specs.Prelude.{◌≡◌, ◌↔◌, None, IfSome};
ghost use Rattle.std.specs.Bool.{OnFalse};
ghost use Rattle.std.specs.Int.{w16, to_be_bytes};
ghost use Rattle.rdm_params.specs.Commands.Changed.{change_of};
ghost use Rattle.rdm_responder.specs.Requests.{Branch, Muting, Set, IsFrom, request_of, get_of, discovery_of};
ghost use Rattle.rdm_responder.specs.Rules.{answered, Account, answer_to, job_with, account_with, control_field, mute_data};
ghost use Rattle.rdm_responder.specs.StandsFor.{Shows};
ghost use Rattle.rdm_responder.specs.Started.{job_in, IsAsInProfile, IsForItsWorker};

use crate::Responder;
use crate::carry_out::carry_out;
use crate::reply::{Heading, send};
use crate::stepped::Stepped;
use rdm_frame::standard::{
    ACK, DISC_MUTE, DISC_UN_MUTE, DISC_UNIQUE_BRANCH, DISCOVERY_COMMAND, GET_COMMAND, SET_COMMAND,
};
use rdm_frame::{Body, FrameView, Uid, Wire, disc_reply, uid_at};
use rdm_params::Devices;

/// The bit of the control field that a device with sub-devices sets (E1.20 section 7.6).
const HAS_SUB_DEVICES: u16 = 0x0002;

/// The bit of one that can do nothing until firmware is uploaded to it.
const IS_BOOT_LOADER: u16 = 0x0004;

/// The bit of one for which a proxy answers.
const IS_PROXIED_DEVICE: u16 = 0x0008;

impl Responder {
    /// Writes what is answered to a frame, of which these are the bytes, and says whether anything is, which job started, and what changed.
    pub(super) fn answer(
        &mut self,
        bytes: &[u8],
        request: &FrameView<'_>,
        wire: &mut Wire,
    ) -> Stepped
        requires { IsFrom bytes.now request.now }
        ensures reply { (a : Account) → Shows self.old a →
            answered result.replied wire.new ≡ answer_to a (request_of a.setup.uid request.now) }
        ensures silent { OnFalse result.replied (wire.new ≡ wire.old) }
        ensures job { (a : Account) → Shows self.old a → job_in result.started ≡ job_with a (request_of a.setup.uid request.now) }
        ensures table { IfSome result.started (IsAsInProfile self.old.parameters.profile) }
        ensures worker { IfSome result.started (IsForItsWorker self.old.outbox.workers) }
        ensures after { (a : Account) → Shows self.old a → Shows self.new (account_with a (request_of a.setup.uid request.now)) }
        ensures unchanged { (result.changed ≡ None) ↔ (self.new.parameters ≡ self.old.parameters) }
        ensures what { IfSome result.changed (λ c. c ≡ change_of request.now.sub request.now.pid) }
    {
        if !request.dst.addresses(self.uid) {
            return Stepped::silent();
        }
        match request.class {
            DISCOVERY_COMMAND => Stepped {
                replied: self.answer_discovery(bytes, request, wire),
                started: None,
                changed: None,
            },
            GET_COMMAND => self.answer_get(bytes, request, wire),
            SET_COMMAND => self.answer_set(bytes, request, wire),
            _ => Stepped::silent(),
        }
    }

    /// Answers a GET. One to more than one device is ignored.
    fn answer_get(&mut self, bytes: &[u8], request: &FrameView<'_>, wire: &mut Wire) -> Stepped
        requires from { IsFrom bytes.now request.now }
        requires class { request.now.class ≡ 0x20 }
        ensures reply { (a : Account) → Shows self.old a → answered result.replied wire.new ≡ answer_to a (get_of request.now) }
        ensures silent { OnFalse result.replied (wire.new ≡ wire.old) }
        ensures job { (a : Account) → Shows self.old a → job_in result.started ≡ job_with a (get_of request.now) }
        ensures table { IfSome result.started (IsAsInProfile self.old.parameters.profile) }
        ensures worker { IfSome result.started (IsForItsWorker self.old.outbox.workers) }
        ensures after { (a : Account) → Shows self.old a → Shows self.new (account_with a (get_of request.now)) }
        ensures unchanged { (result.changed ≡ None) × (self.new.parameters ≡ self.old.parameters) }
    {
        if request.dst.is_broadcast() {
            return Stepped::silent();
        }
        let answer = self
            .devices
            .get_into(request.sub, request.pid, request.body, &mut self.body);
        let body = &mut self.body;
        carry_out(
            self.uid,
            bytes,
            request,
            false,
            answer,
            body,
            &mut self.outbox,
            wire,
        )
    }

    /// Answers a SET.
    fn answer_set(&mut self, bytes: &[u8], request: &FrameView<'_>, wire: &mut Wire) -> Stepped
        requires from { IsFrom bytes.now request.now }
        requires class { request.now.class ≡ 0x30 }
        ensures reply { (a : Account) → Shows self.old a → answered result.replied wire.new ≡ answer_to a (Set request.now) }
        ensures silent { OnFalse result.replied (wire.new ≡ wire.old) }
        ensures job { (a : Account) → Shows self.old a → job_in result.started ≡ job_with a (Set request.now) }
        ensures table { IfSome result.started (IsAsInProfile self.old.parameters.profile) }
        ensures worker { IfSome result.started (IsForItsWorker self.old.outbox.workers) }
        ensures after { (a : Account) → Shows self.old a → Shows self.new (account_with a (Set request.now)) }
        ensures unchanged { (result.changed ≡ None) ↔ (self.new.parameters ≡ self.old.parameters) }
        ensures what { IfSome result.changed (λ c. c ≡ change_of request.now.sub request.now.pid) }
    {
        let (answer, changed) = self
            .devices
            .set_into(request.sub, request.pid, request.body, &mut self.body);
        let body = &mut self.body;
        let mut stepped = carry_out(
            self.uid,
            bytes,
            request,
            request.dst.is_broadcast(),
            answer,
            body,
            &mut self.outbox,
            wire,
        );
        stepped.changed = changed;
        stepped
    }

    /// Answers a discovery command.
    #[tactic(auto, unfolding(crate::specs::Requests::discovery_of))]
    // Inlined, with `answer_muting`: a call would keep the request in memory for every command.
    #[inline(always)]
    fn answer_discovery(&mut self, bytes: &[u8], request: &FrameView<'_>, wire: &mut Wire) -> bool
        requires from { IsFrom bytes.now request.now }
        requires class { request.now.class ≡ 0x10 }
        ensures reply { (a : Account) → Shows self.old a → answered result wire.new ≡ answer_to a (discovery_of request.now) }
        ensures silent { OnFalse result (wire.new ≡ wire.old) }
        ensures job { (a : Account) → job_with a (discovery_of request.now) ≡ None }
        ensures after { (a : Account) → Shows self.old a → Shows self.new (account_with a (discovery_of request.now)) }
        ensures unchanged { self.new.parameters ≡ self.old.parameters }
    {
        if request.sub != 0 {
            return false;
        }
        let bounds = request.body;
        match request.pid {
            DISC_UNIQUE_BRANCH if bounds.len() == 12 => {
                self.answer_branch(uid_at(bounds, 0), uid_at(bounds, 6), wire)
            }
            DISC_MUTE if bounds.is_empty() => self.answer_muting(bytes, request, true, wire),
            DISC_UN_MUTE if bounds.is_empty() => self.answer_muting(bytes, request, false, wire),
            _ => false,
        }
    }

    /// Answers a search for unmuted devices from one UID to another.
    // A call, so that GET and SET don't make room for it.
    #[inline(never)]
    fn answer_branch(&self, lower: Uid, upper: Uid, wire: &mut Wire) -> bool
        ensures reply { (a : Account) → Shows self.now a → answered result wire.new ≡ answer_to a (Branch lower upper) }
        ensures silent { OnFalse result (wire.new ≡ wire.old) }
    {
        let own = self.uid.number();
        if self.muted || own < lower.number() || upper.number() < own {
            return false;
        }
        wire.clear();
        wire.append(&disc_reply(self.uid));
        true
    }

    /// Mutes or un-mutes the device, and answers that.
    // Inlined, as `answer_discovery` says.
    #[inline(always)]
    fn answer_muting(
        &mut self,
        bytes: &[u8],
        request: &FrameView<'_>,
        muted: bool,
        wire: &mut Wire,
    ) -> bool
        requires from { IsFrom bytes.now request.now }
        requires class { request.now.class ≡ 0x10 }
        ensures reply { (a : Account) → Shows self.old a → answered result wire.new ≡ answer_to a (Muting muted request.now) }
        ensures silent { OnFalse result (wire.new ≡ wire.old) }
        ensures after { (a : Account) → Shows self.old a → Shows self.new (account_with a (Muting muted request.now)) }
        ensures unchanged { self.new.parameters ≡ self.old.parameters }
    {
        self.muted = muted;
        tell_muting(&self.devices, &mut self.body);
        let heading = Heading::of_own(request, ACK);
        send(
            self.uid,
            bytes,
            request,
            request.dst.is_broadcast(),
            heading,
            self.body.as_slice(),
            0,
            wire,
        )
    }
}

/// Puts what these devices tell when they are muted or un-muted in `body`: the control field, and the binding UID if there is one (E1.20
/// section 7.6).
// A call, so that GET and SET don't make room for it.
#[inline(never)]
fn tell_muting(devices: &Devices, body: &mut Body)
    ensures { body.new ≡ mute_data devices.now }
{
    body.clear();
    body.append(&control_field(devices).to_be_bytes());
    if let Some(uid) = devices.mute_reply().binding {
        body.append(&uid.maker.to_be_bytes());
        body.append(&uid.device.to_be_bytes());
    }
}

/// The control field: whether there are sub-devices, and what the profile says (E1.20 section 7.6).
fn control_field(devices: &Devices) -> u16
    ensures { to_be_bytes w16 result ≡ control_field devices.now }
{
    let reply = devices.mute_reply();
    let sub_devices = if devices.sub_devices() == 0 {
        0
    } else {
        HAS_SUB_DEVICES
    };
    let boot_loader = if reply.boot_loader { IS_BOOT_LOADER } else { 0 };
    let proxied_device = if reply.proxied_device {
        IS_PROXIED_DEVICE
    } else {
        0
    };
    sub_devices + boot_loader + proxied_device
}
