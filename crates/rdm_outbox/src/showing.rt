//! Status entries, and the status message that shows them.

ghost use Rattle.std.specs.Prelude.{◌≡◌, ◌≤◌, ◌+◌, ◌*◌, ◌&&◌, [], ◌++◌, length, take, flat_map, nat_lt, unwrap_or, IsTrue};
ghost use Rattle.std.specs.List.{position};
ghost use Rattle.rdm_outbox.specs.Statuses.{asks_for, entry_slots, first_asked, others, status_message};
ghost use Rattle.std.specs.Vec.{vec_capacity};
ghost use Rattle.rdm_outbox.specs.Messages.{is_last};

use crate::kept::KeptEntry;
use rdm_frame::Body;
use rdm_frame::standard::{GET_COMMAND_RESPONSE, ROOT_DEVICE};
use rdm_params::{Ask, Entry, Kind, Message};

/// How many entries the slots of one message hold.
const MOST_SHOWN: usize = 25;

/// Whether the last message is asked for again.
pub(crate) fn is_last(ask: Ask) -> bool
    ensures { result ≡ is_last ask }
{
    match ask {
        Ask::Last => true,
        Ask::None | Ask::Advisory | Ask::Warning | Ask::Error => false,
    }
}

/// Makes the status message of a status type, in the place of what `message` was, and takes away the entries that it
/// shows.
pub(crate) fn show_status(entries: &mut Vec<KeptEntry>, ask: Ask, message: &mut Message)
    ensures said { message.new ≡ status_message (first_asked 25 ask entries.old.items) }
    ensures left { entries.new.items ≡ others 25 ask entries.old.items }
    ensures fewer { length entries.new.items ≤ length entries.old.items }
    ensures capacity { vec_capacity entries.new ≡ vec_capacity entries.old }
{
    message.class = GET_COMMAND_RESPONSE;
    message.pid = Kind::StatusMessages.pid();
    message.sub = ROOT_DEVICE;
    message.body.clear();
    let left = show_asked(entries.as_mut_slice(), MOST_SHOWN, ask, &mut message.body);
    entries.truncate(left);
}

/// An empty status message.
pub(crate) fn empty_status() -> Message
    ensures { result ≡ status_message [] }
{
    Message {
        class: GET_COMMAND_RESPONSE,
        pid: Kind::StatusMessages.pid(),
        sub: ROOT_DEVICE,
        body: Body::new(),
    }
}

/// Shows the first `most` entries that are asked for. Their slots go into `body`, the others move up in their order, and
/// the result is how many they are.
fn show_asked(entries: &mut [KeptEntry], most: usize, ask: Ask, body: &mut Body) -> usize
    requires empty { body.old ≡ [] }
    requires fits { 9 * most ≤ 231 }
    ensures said { body.new ≡ flat_map entry_slots (first_asked most ask entries.old) }
    ensures left { take result entries.new ≡ others most ask entries.old }
    ensures within { result ≤ length entries.old }
{
    let mut room = most;
    let mut kept = first_place(entries, ask);
    for at in kept..entries.len() {
        let entry = entries[at].entry();
        if is_shown(room, ask, &entry) {
            append_entry(&entry, body);
            room -= 1;
        } else {
            entries[kept] = KeptEntry::of(entry);
            kept += 1;
        }
    }
    kept
}

/// The place of the first entry that is asked for, or how many there are: those before it stay where they are.
fn first_place(entries: &[KeptEntry], ask: Ask) -> usize
    ensures { result ≡ unwrap_or (position (asks_for ask) entries.now) (length entries.now) }
{
    first_shown(entries, ask).unwrap_or(entries.len())
}

/// The place of the first entry that is asked for, if there is one.
fn first_shown(entries: &[KeptEntry], ask: Ask) -> Option<usize>
    ensures { result ≡ position (asks_for ask) entries.now }
{
    entries.iter().position(|kept| asks_for(ask, &kept.entry()))
}

/// Whether there is room for an entry, and it is asked for.
fn is_shown(room: usize, ask: Ask, entry: &Entry) -> bool
    ensures { result ≡ (nat_lt 0 room && asks_for ask entry.now) }
{
    room > 0 && asks_for(ask, entry)
}

/// Whether a status type is for an entry.
fn asks_for(ask: Ask, entry: &Entry) -> bool
    ensures { result ≡ asks_for ask entry.now }
{
    let rank = entry.severity.rank();
    match ask {
        Ask::None | Ask::Last => false,
        Ask::Advisory => rank >= 2,
        Ask::Warning => rank >= 3,
        Ask::Error => rank >= 4,
    }
}

/// Puts the nine slots of an entry at the end of a body that has room for them.
fn append_entry(entry: &Entry, body: &mut Body)
    requires { length body.old + 9 ≤ 231 }
    ensures { body.new ≡ body.old ++ entry_slots entry.now }
{
    body.append(&entry.sub.to_be_bytes());
    body.append(&[entry.severity.code()]);
    body.append(&entry.id.to_be_bytes());
    body.append(&entry.v1.to_be_bytes());
    body.append(&entry.v2.to_be_bytes());
}
