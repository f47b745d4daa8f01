//! What the replies of a capture say of the fixture that gave them.

ghost use Rattle.std.specs.Prelude.{◌≡◌, Option, Some, None, option_map, ◌&&◌, not};
ghost use Rattle.rdm_frame.specs.Reading.{frame_in};
ghost use Rattle.rdm_responder.specs.History.{History, Heard, then_event};
ghost use Rattle.rdm_responder.specs.Rules.{reply_of};
ghost use Rattle.rdm_responder.specs.StandsFor.{StandsFor};
ghost use Rattle.rdm_judge.specs.Judging.{rule_unless};
ghost use Rattle.rdm_judge.specs.Seen.{after_exchange, after_frame, after_request, asks_again, fewest, frame_seen, is_another, is_branch_reply, judged_with, last_after, message_of, nothing_seen, polls, response_to, rule_at, rule_of, same_message, with_rule};

use crate::asked::{Asked, asked_by};
use crate::comparing::{fetches, rule_unless};
use crate::judging::{is_from, judge};
use crate::verdict::{Judged, Rule, Verdict};
use rdm_frame::standard::{
    ACK, DISC_MUTE, GET_COMMAND, GET_LAST_MESSAGE, QUEUED_MESSAGE, ROOT_DEVICE,
};
use rdm_frame::{Body, FrameView, Message, Uid, decode_view, disc_reply};
use rdm_responder::Responder;

/// What is known of a fixture from the replies of a capture, whatever happened to it before: that it is muted, its last message, and how
/// many messages wait in it.
#[derive(Debug, Drop)]
pub struct Seen {
    /// Whether it is known to be muted.
    muted: bool,
    /// The last message, if it is known.
    last: Option<Message>,
    /// How many messages wait at least.
    waiting: u8,
}

impl Seen {
    /// What is known before the first request of a capture: nothing.
    pub fn new() -> Self
        ensures { result ≡ nothing_seen }
    {
        Seen {
            muted: false,
            last: None,
            waiting: 0,
        }
    }

    /// Judges the next reply of a capture, or that there is none, and keeps what it says of the fixture.
    ///
    /// The verdict is that of [`judge`], but a reply is also `Wrong` if no fixture gives it that has given the replies before it:
    /// `no_capture_is_judged_wrong`. From the first request of the capture on, each that the fixture may have received is handed in, and the
    /// twin receives it, too. The fixture must stay switched on.
    pub fn judge(&mut self, twin: &mut Responder, request: &[u8], reply: Option<&[u8]>) -> Judged
        ensures verdict { (h : History) → StandsFor twin.old h → result.verdict ≡ judged_with self.old h (record { request = request.now; reply = option_map (λ bytes. bytes.now) reply.entry }) }
        ensures given { (h : History) → StandsFor twin.old h → result.given ≡ reply_of h request.now }
        ensures seen { (h : History) → StandsFor twin.old h → self.new ≡ after_exchange h.setup.uid self.old (record { request = request.now; reply = option_map (λ bytes. bytes.now) reply.entry }) }
        ensures stands { (h : History) → StandsFor twin.old h → StandsFor twin.new (then_event h (Heard request.now)) }
    {
        let own = twin.uid();
        let Judged { verdict, given } = judge(twin, request, reply);
        let rule = self.take(own, request, reply);
        Judged {
            verdict: with_rule(verdict, rule),
            given,
        }
    }

    /// Takes in a reply, and returns the rule that it breaks by what was known before it.
    fn take(&mut self, own: Uid, request: &[u8], reply: Option<&[u8]>) -> Option<Rule>
        ensures rule { result ≡ rule_at self.old own (frame_in request.now) (option_map (λ bytes. bytes.now) reply.entry) }
        ensures seen { self.new ≡ after_frame own self.old (frame_in request.now) (option_map (λ bytes. bytes.now) reply.entry) }
    {
        match decode_view(request) {
            Ok(request) => self.take_frame(own, &request, reply),
            Err(_) => None,
        }
    }

    /// The same of a request that is a frame.
    fn take_frame(
        &mut self,
        own: Uid,
        request: &FrameView<'_>,
        reply: Option<&[u8]>,
    ) -> Option<Rule>
        ensures rule { result ≡ rule_at self.old own (Some request.now) (option_map (λ bytes. bytes.now) reply.entry) }
        ensures seen { self.new ≡ after_frame own self.old (Some request.now) (option_map (λ bytes. bytes.now) reply.entry) }
    {
        match asked_by(own, request) {
            Asked::Branch { .. } => self.rule_on_branch(own, reply),
            Asked::Mute => {
                self.take_mute(own, request, reply);
                None
            }
            Asked::Command => self.take_command(own, request, reply),
            Asked::Nothing => None,
        }
    }

    /// The rule that a reply to DISC_UNIQUE_BRANCH breaks: a muted device gives none (E1.20 section 7.6).
    fn rule_on_branch(&self, own: Uid, reply: Option<&[u8]>) -> Option<Rule>
        ensures { result ≡ rule_unless (not (self.now.muted && is_branch_reply own (option_map (λ bytes. bytes.now) reply.entry))) Rule.Muted }
    {
        let breaks = self.muted && is_branch_reply(own, reply);
        rule_unless(!breaks, Rule::Muted)
    }

    /// Takes in the reply to a mute or an un-mute, if one came.
    fn take_mute(&mut self, own: Uid, request: &FrameView<'_>, reply: Option<&[u8]>)
        ensures { self.new ≡ after_request self.old request.now Asked.Mute (response_to own request.now (frame_seen (option_map (λ bytes. bytes.now) reply.entry))) }
    {
        let is_mute = request.pid == DISC_MUTE;
        match response_to(own, request, reply) {
            Some(_) => self.muted = is_mute,
            None => self.muted = self.muted && is_mute,
        }
    }

    /// Takes in the reply to a GET or a SET, and returns the rule that it breaks.
    fn take_command(
        &mut self,
        own: Uid,
        request: &FrameView<'_>,
        reply: Option<&[u8]>,
    ) -> Option<Rule>
        ensures rule { result ≡ rule_of self.old request.now (response_to own request.now (frame_seen (option_map (λ bytes. bytes.now) reply.entry))) }
        ensures seen { self.new ≡ after_request self.old request.now Asked.Command (response_to own request.now (frame_seen (option_map (λ bytes. bytes.now) reply.entry))) }
    {
        match response_to(own, request, reply) {
            Some(response) => self.take_response(request, &response),
            None => {
                self.take_silence(request);
                None
            }
        }
    }

    /// The same of a response of the fixture.
    fn take_response(&mut self, request: &FrameView<'_>, response: &FrameView<'_>) -> Option<Rule>
        ensures rule { result ≡ rule_of self.old request.now (Some response.now) }
        ensures seen { self.new ≡ after_request self.old request.now Asked.Command (Some response.now) }
    {
        let rule = self.rule_of(request, response);
        self.waiting = response.count;
        self.take_last(request, response);
        rule
    }

    /// The rule that a response breaks by what is known.
    fn rule_of(&self, request: &FrameView<'_>, response: &FrameView<'_>) -> Option<Rule>
        ensures { result ≡ rule_of self.now request.now (Some response.now) }
    {
        if asks_again(request) && self.is_another(response) {
            return Some(Rule::LastMessage);
        }
        rule_unless(fewest(self.waiting, request) <= response.count, Rule::Count)
    }

    /// Whether a response is an ACK with another message than the last one.
    fn is_another(&self, response: &FrameView<'_>) -> bool
        ensures { result ≡ is_another self.now.last response.now }
    {
        match &self.last {
            Some(last) => response.port == ACK && !is_message_of(response, last),
            None => false,
        }
    }

    /// Takes in the last message, if a response carries it.
    fn take_last(&mut self, request: &FrameView<'_>, response: &FrameView<'_>)
        ensures { self.new ≡ record self.old { last = last_after self.old.last request.now (Some response.now) } }
    {
        if fetches(request) && response.port == ACK {
            self.last = Some(message_of(response));
        } else {
            self.forget_last(request);
        }
    }

    /// Forgets the last message, if a request may have fetched another.
    fn forget_last(&mut self, request: &FrameView<'_>)
        ensures { self.new ≡ record self.old { last = last_after self.old.last request.now None } }
    {
        if fetches(request) && !asks_again(request) {
            self.last = None;
        }
    }

    /// What is known after a GET or a SET of which it isn't known whether the fixture received it.
    fn take_silence(&mut self, request: &FrameView<'_>)
        ensures { self.new ≡ after_request self.old request.now Asked.Command None }
    {
        self.waiting = fewest(self.waiting, request);
        self.forget_last(request);
    }
}

/// A verdict, and the rule that the reply breaks by what is known.
fn with_rule(verdict: Verdict, rule: Option<Rule>) -> Verdict
    ensures { result ≡ with_rule verdict rule }
{
    match (verdict, rule) {
        (Verdict::Wrong(other), _) => Verdict::Wrong(other),
        (_, Some(rule)) => Verdict::Wrong(rule),
        (verdict, None) => verdict,
    }
}

/// The response of the fixture to a request, if the reply is one.
fn response_to<'a>(
    own: Uid,
    request: &FrameView<'_>,
    reply: Option<&'a [u8]>,
) -> Option<FrameView<'a>>
    ensures { result ≡ response_to own request.now (frame_seen (option_map (λ bytes. bytes.now) reply.entry)) }
{
    let Some(reply) = reply else {
        return None;
    };
    match decode_view(reply) {
        Ok(response) if is_from(own, &response) && response.tn == request.tn => Some(response),
        _ => None,
    }
}

/// Whether a reply is the fixture's answer to DISC_UNIQUE_BRANCH.
fn is_branch_reply(own: Uid, reply: Option<&[u8]>) -> bool
    ensures { result ≡ is_branch_reply own (option_map (λ bytes. bytes.now) reply.entry) }
{
    match reply {
        Some(reply) => reply == disc_reply(own).as_slice(),
        None => false,
    }
}

/// Whether a request is a GET of QUEUED_MESSAGE.
fn polls(request: &FrameView<'_>) -> bool
    ensures { result ≡ polls request.now }
{
    request.class == GET_COMMAND && request.pid == QUEUED_MESSAGE
}

/// Whether a request asks the root for the last message again (E1.20 table A-4).
fn asks_again(request: &FrameView<'_>) -> bool
    ensures { result ≡ asks_again request.now }
{
    fetches(request) && request.sub == ROOT_DEVICE && request.body == [GET_LAST_MESSAGE].as_slice()
}

/// How many messages wait at least, once the fixture may have received a request.
fn fewest(waiting: u8, request: &FrameView<'_>) -> u8
    ensures { result ≡ fewest waiting request.now }
{
    if polls(request) && !asks_again(request) {
        waiting.saturating_sub(1)
    } else {
        waiting
    }
}

/// The message that a response carries.
fn message_of(response: &FrameView<'_>) -> Message
    ensures { result ≡ message_of response.now }
{
    let mut body = Body::new();
    body.append(response.body);
    Message {
        class: response.class,
        pid: response.pid,
        sub: response.sub,
        body,
    }
}

/// Whether a response carries this message.
fn is_message_of(response: &FrameView<'_>, message: &Message) -> bool
    ensures { result ≡ same_message message.now (message_of response.now) }
{
    message.class == response.class
        && message.pid == response.pid
        && message.sub == response.sub
        && message.body.as_slice() == response.body
}
