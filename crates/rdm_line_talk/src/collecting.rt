//! The messages of a device are fetched.

use crate::console::Console;
use crate::telling::CONSOLE;
use rdm_collector::{Port, Uid, Want, Wire};
use rdm_console::{Came, Fetched, Fetching, Mailbox, Sorted, poll_once};
use rdm_host::fault::Fault;
use rdm_host::host::Host;
use rdm_host::line_fault::LineFault;
use std::io::Write;

/// How many messages are fetched at most. A device has no more that wait, but may say for ever that one does.
const MOST_MESSAGES: u32 = 65536;

impl<'a, H: Host, P: Port, F: Write> Console<'a, H, P, F> {
    /// Fetches all messages that wait in a device, and tells each.
    pub fn collect(&mut self, uid: Uid) -> Result<(), Fault<'a>> {
        let alloc = self.teller.rt().alloc();
        let mut mailbox = Mailbox::new(alloc, CONSOLE, uid, Want::Advisory);
        self.fetch_all(&mut mailbox)
    }

    /// Fetches all messages that wait in the device of a mailbox, and tells each.
    fn fetch_all(&mut self, mailbox: &mut Mailbox) -> Result<(), Fault<'a>> {
        let uid = mailbox.uid();
        for _turn in 0..MOST_MESSAGES {
            match self.fetch(mailbox)? {
                Fetched::Message | Fetched::Repeat => {}
                Fetched::Nothing => return Ok(()),
                Fetched::NotYet { tenths } => self.teller.wait(uid, tenths),
                Fetched::NoQueue => return Err(Fault::Line(LineFault::NoQueue(uid))),
                Fetched::Refused { reason } => {
                    return Err(Fault::Line(LineFault::Refused(uid, reason)));
                }
                Fetched::Silent => return Err(Fault::Line(LineFault::Silent(uid))),
                Fetched::Endless => return Err(Fault::Line(LineFault::Endless(uid))),
            }
        }
        Err(Fault::Line(LineFault::Endless(uid)))
    }

    /// Fetches the next message of a device, and tells it. A poll that isn't answered is repeated, and then the device gives the
    /// last message again, if it gave one (E1.20 section 10.3.1).
    pub fn fetch(&mut self, mailbox: &mut Mailbox) -> Result<Fetched, Fault<'a>> {
        let mut fetching = Fetching::new();
        for _turn in 0..u64::MAX {
            let came = self.told_poll(mailbox)?;
            if let Some(fetched) = fetching.hear(came) {
                return Ok(fetched);
            }
        }
        Ok(Fetched::Endless)
    }

    /// Polls a device once, and tells what is fetched, unless it was told before. Of a message in parts the rest is told with the last.
    fn told_poll(&mut self, mailbox: &mut Mailbox) -> Result<Came, Fault<'a>> {
        let (came, heard) = poll_once(mailbox, &mut self.port)?;
        self.tell_polled(mailbox, came, &heard)?;
        Ok(came)
    }

    /// Tells what a poll fetched.
    pub(crate) fn tell_polled(
        &mut self,
        mailbox: &mut Mailbox,
        came: Came,
        heard: &Option<Wire>,
    ) -> Result<(), Fault<'a>> {
        if let Came::Message(Sorted::Letter | Sorted::Part) = came {
            self.tell_heard(mailbox, heard)?;
        }
        if came == Came::Message(Sorted::Letter) {
            self.tell_more(mailbox)?;
        }
        Ok(())
    }

    /// Tells what was heard.
    fn tell_heard(&mut self, mailbox: &mut Mailbox, heard: &Option<Wire>) -> Result<(), Fault<'a>> {
        match heard {
            Some(reply) => self.tell_reply(mailbox, reply),
            None => Ok(()),
        }
    }

    /// Tells of the message that came last what its reply doesn't say.
    fn tell_more(&mut self, mailbox: &Mailbox) -> Result<(), Fault<'a>> {
        let Some(letter) = mailbox.letter() else {
            return Ok(());
        };
        if letter.in_parts {
            self.teller.tell_joined(letter.message.body)?;
        }
        if !letter.is_whole {
            self.teller.tell(b"  a poll for its parts wasn't answered: a part may be missing\n")?;
        }
        if letter.again {
            self.teller.tell(b"  it was asked for again, and may have been fetched before\n")?;
        }
        Ok(())
    }
}
