//! The interface, as its host sees it.

ghost use Rattle.std.specs.Prelude.{◌≡◌, ◌≢◌, ◌<◌, ℕ, List, [], length, true, false, Option, IfOk, OnErr};
ghost use Rattle.std.specs.Option.{option_and_then};
ghost use Rattle.std.specs.Io.KnownBytes.{Appends, Consumes, IsAtEnd};
ghost use Rattle.rdm_messages.specs.Framing.{Message, message_bytes};
ghost use Rattle.rdm_interface.specs.declared.wanted.Wanted.TheVariants.{Labelled};
ghost use Rattle.rdm_interface.specs.Answers.{ask_parameters, ask_serial_number, belongs, label_for, parameters_in, request_message, serial_number_in, wanted_by};
ghost use Rattle.rdm_interface.specs.Exchanges.{IsAsked, IsCutOff, IsExchanged, IsOver, NonePassedOver};

use crate::exchanging::{ask, exchange};
use crate::parameters::{Parameters, parameters_in, serial_number_in};
use crate::waiting::pass_over;
use crate::wanted::Wanted;
use rdm_collector::{Port, PortError};
use rdm_frame::Wire;
use rdm_messages::labels::{PARAMETERS, SERIAL_NUMBER};
use rdm_messages::{Clock, MessageView, Packet};
use std::io::{Read, Write};

/// An interface that speaks the protocol of the ENTTEC DMX USB Pro, as its host sees it: over the reader and the writer of a
/// serial line, and a clock for its limit.
///
/// **Time.** A read that gives no byte says that none came in the time that the reader waits, as a serial device does that was set
/// to `min 0 time 1`. Then the clock is asked whether the limit is over. If 1,000 reads in a row give no byte and it isn't, the
/// line is closed: a reader that waits a tenth of a second each time is never taken for closed, since the longest limit is 65.535
/// seconds. A read that never returns is waited for without end.
///
/// **Late answers.** What comes behind the answer is kept for the next call, which passes over what doesn't belong to it. A
/// response belongs by its transaction number, its UIDs and its parameter (E1.20 section 6.2). The transaction numbers of a
/// collector wrap after 256 requests, so a response that is as late as that would be taken for the answer to the same question. Of
/// bytes that answer DISC_UNIQUE_BRANCH nothing says to which request they belong, nor does a message that nobody answered. So call
/// `clear` before the first request, when answers to those of another program may still come, and give a limit that is longer than
/// the interface ever takes.
#[derive(Drop)]
pub struct Interface<R: Read, W: Write, C: Clock> {
    reader: R,
    writer: W,
    clock: C,
    span: u16,
    held: Packet,
    ghost room: { length held < 605 },
}

impl<R: Read, W: Write, C: Clock> Interface<R, W, C> {
    ghost use Rattle.rdm_interface.specs.Interfaces.{end_of};

    /// An interface on this line, which is waited for so many milliseconds. Nothing is read or written yet.
    pub fn new(reader: R, writer: W, clock: C, limit: u16) -> Interface<R, W, C>
        ensures reader { result.reader ≡ reader }
        ensures writer { result.writer ≡ writer }
        ensures clock { result.clock ≡ clock }
        ensures limit { result.span ≡ limit }
        ensures held { result.held ≡ [] }
    {
        Interface {
            reader,
            writer,
            clock,
            span: limit,
            held: Packet::new(),
        }
    }

    /// The reader, the writer and the clock. What was read and isn't done with is dropped.
    pub fn into_parts(self) -> (R, W, C)
        ensures reader { result.0 ≡ self.reader }
        ensures writer { result.1 ≡ self.writer }
        ensures clock { result.2 ≡ self.clock }
    {
        let Interface {
            reader,
            writer,
            clock,
            span: _,
            held: _,
        } = self;
        (reader, writer, clock)
    }

    /// Sends the bytes of a request on the line: DISC_UNIQUE_BRANCH with label 11, and any other with label 7. Says what is heard,
    /// or `None` if nobody answers, or nothing that belongs to the request comes within the limit.
    ///
    /// After a write that failed the line may hold the beginning of a message.
    pub fn send(&mut self, request: &Wire) -> Result<Option<Wire>, PortError>
        // The request is written, what doesn't belong to it is passed over, and the answer is heard.
        ensures exchanged { IfOk result (IsExchanged C.tells self.old.span
            (end_of self.old) (end_of self.new) request.now) }
        // Where it fails, no response to the request was passed over.
        ensures passed { OnErr result (label_for (wanted_by request.now) ≡ 7 → NonePassedOver (belongs (wanted_by request.now))
            (end_of self.old) (end_of self.new)) }
        // A line that still gives bytes isn't closed.
        ensures closed { result ≡ Err PortError.Closed → IsAtEnd (R.remaining self.new.reader) }
        // The request is written, but where the writer failed, which took a front of it that isn't all.
        ensures written { result ≢ Err PortError.Write
            → Appends (W.contents self.old.writer) (W.contents self.new.writer) (message_bytes (request_message request.now)) }
        ensures cut { result ≡ Err PortError.Write
            → IsCutOff (W.contents self.old.writer) (W.contents self.new.writer) (message_bytes (request_message request.now)) }
        ensures limit { self.new.span ≡ self.old.span }
    {
        exchange(
            &mut self.reader,
            &mut self.writer,
            &mut self.clock,
            &mut self.held,
            self.span,
            request.as_slice(),
        )
    }

    /// Passes over all that comes, and says whether nothing more does: `false` if bytes still come when the limit is over. It reads
    /// until a read gives no byte.
    pub fn clear(&mut self) -> Result<bool, PortError>
        ensures quiet { result ≡ Ok true → IsAtEnd (R.remaining self.new.reader) }
        ensures loud { result ≡ Ok false → IsOver C.tells self.old.span self.old.clock self.new.clock }
        ensures some { result ≡ Ok false → (bytes : List ℕ) × (0 < length bytes)
            × Consumes (R.remaining self.old.reader) (R.remaining self.new.reader) bytes }
        ensures held { self.new.held ≡ [] }
        ensures read { OnErr result (result ≡ Err PortError.Read) }
        ensures written { self.new.writer ≡ self.old.writer }
        ensures limit { self.new.span ≡ self.old.span }
    {
        self.held = Packet::new();
        pass_over(&mut self.reader, &mut self.clock, self.span)
    }

    /// Asks the interface for its parameters, with label 3: `None` if it doesn't answer within the limit, or not with all of them.
    pub fn parameters(&mut self) -> Result<Option<Parameters>, PortError>
        ensures asked { IfOk result (λ parameters. (answer : Option Message) × IsAsked C.tells self.old.span
            (end_of self.old) (end_of self.new) ask_parameters (belongs (Labelled 3)) answer
            × (parameters ≡ option_and_then parameters_in answer)) }
        // Where it fails, no answer to the question was passed over.
        ensures passed { OnErr result (NonePassedOver (belongs (Labelled 3))
            (end_of self.old) (end_of self.new)) }
        ensures closed { result ≡ Err PortError.Closed → IsAtEnd (R.remaining self.new.reader) }
        // The question is written, but where the writer failed, which took a front of it that isn't all.
        ensures written { result ≢ Err PortError.Write
            → Appends (W.contents self.old.writer) (W.contents self.new.writer) (message_bytes ask_parameters) }
        ensures cut { result ≡ Err PortError.Write
            → IsCutOff (W.contents self.old.writer) (W.contents self.new.writer) (message_bytes ask_parameters) }
        ensures limit { self.new.span ≡ self.old.span }
    {
        let asked = MessageView {
            label: PARAMETERS,
            body: &[0, 0],
        };
        let answer = ask(
            &mut self.reader,
            &mut self.writer,
            &mut self.clock,
            &mut self.held,
            self.span,
            &asked,
            &Wanted::Labelled(PARAMETERS),
        );
        match answer {
            Ok(Some(answer)) => Ok(parameters_in(&answer)),
            Ok(None) => Ok(None),
            Err(error) => Err(error),
        }
    }

    /// Asks the interface for its serial number, with label 10: `None` if it doesn't answer within the limit, or not with four
    /// bytes. Makers write it in decimal digits, each of which has four bits.
    pub fn serial_number(&mut self) -> Result<Option<u32>, PortError>
        ensures asked { IfOk result (λ number. (answer : Option Message) × IsAsked C.tells self.old.span
            (end_of self.old) (end_of self.new) ask_serial_number (belongs (Labelled 10)) answer
            × (number ≡ option_and_then serial_number_in answer)) }
        // Where it fails, no answer to the question was passed over.
        ensures passed { OnErr result (NonePassedOver (belongs (Labelled 10))
            (end_of self.old) (end_of self.new)) }
        ensures closed { result ≡ Err PortError.Closed → IsAtEnd (R.remaining self.new.reader) }
        // The question is written, but where the writer failed, which took a front of it that isn't all.
        ensures written { result ≢ Err PortError.Write
            → Appends (W.contents self.old.writer) (W.contents self.new.writer) (message_bytes ask_serial_number) }
        ensures cut { result ≡ Err PortError.Write
            → IsCutOff (W.contents self.old.writer) (W.contents self.new.writer) (message_bytes ask_serial_number) }
        ensures limit { self.new.span ≡ self.old.span }
    {
        let asked = MessageView {
            label: SERIAL_NUMBER,
            body: &[],
        };
        let answer = ask(
            &mut self.reader,
            &mut self.writer,
            &mut self.clock,
            &mut self.held,
            self.span,
            &asked,
            &Wanted::Labelled(SERIAL_NUMBER),
        );
        match answer {
            Ok(Some(answer)) => Ok(serial_number_in(&answer)),
            Ok(None) => Ok(None),
            Err(error) => Err(error),
        }
    }
}

impl<R: Read, W: Write, C: Clock> Port for Interface<R, W, C> {
    ghost use Rattle.rdm_interface.specs.Interfaces.{fails_of, hears_of};

    // What is heard is what `send` says, and it fails as `send` does. The limit stays.
    ghost hears = { λ before request heard after. hears_of before request heard after };

    ghost fails = { λ before request error after. fails_of before request error after };

    fn exchange(&mut self, request: &Wire) -> Result<Option<Wire>, PortError> {
        self.send(request)
    }
}
