//! What the firmware of a fixture does beside answering, as C calls it: it places values, and it tells of what is wrong.

ghost use Rattle.std.specs.Prelude.{◌≡◌, ◌≢◌, ◌↔◌, IfSome, None, false};
ghost use Rattle.rdm_frame.specs.Severities.{severity_in};
ghost use Rattle.rdm_params.specs.Commands.Placing.{place_refusal};
ghost use Rattle.rdm_responder.specs.History.{History, Noted, Placed, then_event};
ghost use Rattle.rdm_responder.specs.Lawful.{IsLawful};
ghost use Rattle.rdm_responder.specs.Rules.{account_of};
ghost use Rattle.rdm_c.specs.Statuses.{code_of, of_place_refusal};
ghost use Rattle.rdm_c.specs.Outcomes.{entry_in};
ghost use Rattle.rdm_c.specs.Endpoints.{HeldFor, found, holds_responder, flag, is_noted};

use crate::endpoint;
use crate::handle::Handle;
use crate::keeping::{put, take};
use crate::outcome::entry_in;
use crate::status::Status;
use std::alloc::Global;

/// Makes a stored value at the root, or at one sub-device, what a SET of it would make it, as firmware does that restores its
/// values, or counts hours: at once, with no message, and whether there is room for one or not. What a sensor shows is placed
/// by the 9 slots with which SENSOR_VALUE replies (E1.20 section 10.7.2).
///
/// If the device doesn't exist that comes first, then that it stores no value of this parameter, then that the data have
/// another length than the value, and last that neither a SET may ask for the value nor a GET tell it, or that there is no such
/// sensor. Nothing changes then.
#[unsafe(no_mangle)]
pub extern "C" fn felosumay_responder_place_nonnull(
    alloc: Global,
    responder: &mut Handle,
    sub: u16,
    pid: u16,
    load: &[u8],
) -> u8
    ensures told { (h : History) → HeldFor responder.old.held h →
        result ≡ code_of (of_place_refusal (place_refusal (account_of h).parameters sub pid load.now)) }
    ensures lawful { (h : History) → IsLawful h → HeldFor responder.old.held h →
        ((result ≡ code_of Status.Done) ↔ IsLawful (then_event h (Placed sub pid load.now))) }
    ensures stands { (h : History) → HeldFor responder.old.held h → result ≡ code_of Status.Done →
        HeldFor responder.new.held (then_event h (Placed sub pid load.now)) }
    ensures absent { (result ≡ code_of Status.Absent) ↔ (holds_responder responder.old.held ≡ false) }
    ensures same { result ≢ code_of Status.Done → responder.new.held ≡ responder.old.held }
{
    let Some(mut endpoint) = take(alloc, responder) else {
        return Status::Absent.code();
    };
    let status = endpoint::firmware::place(&mut endpoint, sub, pid, load);
    put(responder, endpoint);
    status.code()
}

/// Notes a status entry of the firmware's own, such as a fan that stands still: STATUS_MESSAGES shows it once, as it shows those
/// of failed jobs (E1.20 section 10.3.2). `noted` is 1 if it is kept, else 0: it is if there is such a device, the device's
/// threshold isn't above it (section 10.3.5), and there is room for it.
///
/// A status type that isn't one of the six of table A-4 is unknown, whatever the handle holds, and nothing changes then.
#[unsafe(no_mangle)]
pub extern "C" fn felosumay_responder_note(
    alloc: Global,
    responder: &mut Handle,
    sub: u16,
    severity: u8,
    id: u16,
    v1: u16,
    v2: u16,
    noted: &mut u8,
) -> u8
    ensures unknown { (result ≡ code_of Status.Unknown) ↔ (severity_in severity ≡ None) }
    ensures status { IfSome (severity_in severity) (λ s. result ≡ code_of (found (holds_responder responder.old.held))) }
    ensures noted { IfSome (entry_in sub severity id v1 v2) (λ entry. (h : History) → HeldFor responder.old.held h →
        noted.new ≡ flag (is_noted h (Noted entry))) }
    ensures stands { IfSome (entry_in sub severity id v1 v2) (λ entry. (h : History) → HeldFor responder.old.held h →
        HeldFor responder.new.held (then_event h (Noted entry))) }
    ensures same { result ≢ code_of Status.Done → responder.new.held ≡ responder.old.held }
{
    let Some(entry) = entry_in(sub, severity, id, v1, v2) else {
        return Status::Unknown.code();
    };
    let Some(mut endpoint) = take(alloc, responder) else {
        return Status::Absent.code();
    };
    let status = endpoint::firmware::note(&mut endpoint, entry, noted);
    put(responder, endpoint);
    status.code()
}
