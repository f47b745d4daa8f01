//! All devices of a line are looked for.

use crate::console::Console;
use crate::telling::CONSOLE;
use rdm_collector::{Action, Command, Load, Port, Response, Want, read_reply};
use rdm_console::Mailbox;
use rdm_frame::Uid;
use rdm_host::fault::Fault;
use rdm_host::host::Host;
use rdm_host::line_fault::LineFault;
use rdm_interface::step_through;
use rdm_params::Kind;
use rdm_search::{Found, Search};
use rdm_usage::MOST_FIXTURES;
use std::fmt::Write as WriteText;
use std::io::Write;

/// How many times a request is asked again that nothing answers: as many as lines lose in a row at times.
const RETRIES: u8 = 2;

/// How many transactions a search of the greatest line takes at most.
const LIMIT: u32 = 74 * MOST_FIXTURES as u32 + 2;

impl<'a, H: Host, P: Port, F: Write> Console<'a, H, P, F> {
    /// Finds all devices, and tells the UID of each, its model and its label as it is found.
    pub fn find(&mut self) -> Result<(), Fault<'a>> {
        self.search(true)?;
        Ok(())
    }

    /// The UIDs of all devices on the line. If there is none, that is a fault.
    pub fn found(&mut self) -> Result<Vec<Uid>, Fault<'a>> {
        let search = self.search(false)?;
        let found = search.found();
        let mut uids = Vec::with_capacity(self.teller.rt().alloc(), found.len())?;
        for one in found {
            uids.push(one.uid)?;
        }
        Ok(uids)
    }

    /// Searches the line. If nobody is found, that is a fault. Whoever is found may be told at once.
    fn search(&mut self, is_told: bool) -> Result<Search, Fault<'a>> {
        let mut search = Search::new(self.teller.rt().alloc(), CONSOLE, LIMIT);
        let ran = self.search_on(&mut search, is_told);
        self.teller.show("");
        ran?;
        self.name_unsure(&search);
        if search.found().is_empty() {
            return Err(Fault::Line(LineFault::NoDevice));
        }
        Ok(search)
    }

    /// Runs a search to its end.
    fn search_on(&mut self, search: &mut Search, is_told: bool) -> Result<(), Fault<'a>> {
        let mut told = 0;
        for sent in 0..u64::MAX {
            self.show_progress(search.found().len(), sent)?;
            if !step_through(search, &mut self.port, RETRIES)? {
                return Ok(());
            }
            if is_told {
                told = self.tell_new(search.found(), told)?;
            }
        }
        Ok(())
    }

    /// Tells the device that comes behind so many that were told, if it was found. Gives how many are told then.
    fn tell_new(&mut self, found: &[Found], told: usize) -> Result<usize, Fault<'a>> {
        let Some(one) = found.get(told) else {
            return Ok(told);
        };
        self.teller.show("");
        self.tell_found(one.uid)?;
        Ok(told.saturating_add(1))
    }

    /// Shows how far a search is, where somebody sees it.
    fn show_progress(&self, found: usize, sent: u64) -> Result<(), Fault<'a>> {
        if self.teller.is_seen() {
            let words = format!(in self.teller.rt().alloc();
                "{found} found so far, {sent} requests"
            )?;
            self.teller.show(words.as_str());
        }
        Ok(())
    }

    /// Names those that may be there, though they weren't found.
    fn name_unsure(&self, search: &Search) {
        let rt = self.teller.rt();
        for uid in search.unsure() {
            let uid = *uid;
            if !search.found().iter().any(|one| one.uid == uid) {
                let _ = eprintln!(rt;
                    "{uid} may be there: it answered DISC_MUTE, but never validly"
                );
            }
        }
    }

    /// Tells the UID of a device, its model and its label.
    fn tell_found(&mut self, uid: Uid) -> Result<(), Fault<'a>> {
        let alloc = self.teller.rt().alloc();
        let mut mailbox = Mailbox::new(alloc, CONSOLE, uid, Want::Advisory);
        let mut line = String::new(alloc);
        self.put_found(&mut mailbox, &mut line)?;
        self.teller.tell(line.as_bytes())
    }

    /// Puts the UID of a device, its model and its label at the end of a line.
    fn put_found(&mut self, mailbox: &mut Mailbox, line: &mut String) -> Result<(), Fault<'a>> {
        write!(line, "{}", mailbox.uid())?;
        self.put_text(mailbox, line, Kind::DeviceModelDescription)?;
        self.put_text(mailbox, line, Kind::DeviceLabel)?;
        line.push_str("\n")?;
        Ok(())
    }

    /// Puts a text of a device at the end of a line, in double quotes, or a dash if it tells none.
    fn put_text(
        &mut self,
        mailbox: &mut Mailbox,
        line: &mut String,
        kind: Kind,
    ) -> Result<(), Fault<'a>> {
        let command = Command {
            dst: mailbox.uid(),
            action: Action::Get,
            sub: 0,
            pid: kind.pid(),
            load: Load::new(),
        };
        let Some(reply) = self.answer(mailbox, &command)? else {
            line.push_str(" -")?;
            return Ok(());
        };
        match read_reply(reply.as_slice()) {
            Some(said) if said.response == Response::Ack => put_quoted(line, said.body),
            _ => {
                line.push_str(" -")?;
                Ok(())
            }
        }
    }
}

/// Puts bytes at the end of a line, in double quotes: those that aren't printable ASCII by their numbers.
fn put_quoted<'a>(line: &mut String, bytes: &[u8]) -> Result<(), Fault<'a>> {
    line.push_str(" \"")?;
    for byte in bytes {
        let byte = *byte;
        if byte == b'"' || byte == b'\\' {
            line.push_str("\\")?;
        }
        if (0x20..0x7F).contains(&byte) {
            line.push(char::from(byte))?;
        } else {
            write!(line, "\\x{byte:02X}")?;
        }
    }
    line.push_str("\"")?;
    Ok(())
}
