//! The collector, as C calls it.

ghost use Rattle.std.specs.Prelude.{◌≡◌, ◌≢◌, ◌↔◌, ◌⊎◌, IfSome, IsSome, None, Some, is_some, slice_get};
ghost use denote.RawPtr.{Testable};
ghost use types.Logic.{sem};
ghost use Rattle.rdm_collector.specs.Sending.{refusal_of, poll_request, command_request};
ghost use Rattle.rdm_collector.specs.AnyDevice.Collecting.{new_device_collector, sender, after_ask, after_poll, after_over, after_hearing, heard_in};
ghost use Rattle.rdm_c.specs.Places.{handle_at, nobody};
ghost use Rattle.rdm_c.specs.Endpoints.{found, held_collector};
ghost use Rattle.rdm_c.specs.Messages.{MessageTold, action_in, after_next, command_in, heard_numbers, want_in};
ghost use Rattle.rdm_c.specs.Requests.{IsWritten};
ghost use Rattle.rdm_c.specs.Statuses.{code_of, of_refusal};

use crate::endpoint;
use crate::endpoint::Endpoint;
use crate::handle::Handle;
use crate::keeping::{free_at, put, replace, take};
use crate::message::{CommandNumbers, HeardNumbers, MessageNumbers, want_in};
use crate::status::Status;
use rdm_collector::DeviceCollector;
use rdm_frame::Uid;
use rdm_frame::standard::MOST_SLOTS;
use std::alloc::Global;

/// Makes a collector with this UID for the messages of the target, whatever response types its answers have (E1.20 section 6.3),
/// in the place of what the handle held. `wants` is the least severity of the status entries that it wants: 02 for advisories, 03
/// for warnings, 04 for errors (table A-4).
///
/// Any other is unknown. A UID of its own or of its target that addresses more than one device is rejected next, since
/// nobody answers a poll of several devices; and last comes out of memory. If it is rejected, the handle stays as it was.
#[unsafe(no_mangle)]
pub extern "C" fn felosumay_collector_new(
    alloc: Global,
    collector: &mut Handle,
    maker: u16,
    device: u32,
    target_maker: u16,
    target_device: u32,
    wants: u8,
) -> u8
    ensures made { IfSome (want_in wants) (λ want. result ≡ code_of Status.Done → held_collector collector.new.held ≡ Some
        (new_device_collector (record { maker = maker; device = device }) (record { maker = target_maker; device = target_device }) want)) }
    ensures unknown { (result ≡ code_of Status.Unknown) ↔ (want_in wants ≡ None) }
    ensures bad_uid { (result ≡ code_of Status.BadUid)
        ↔ ((want_in wants ≢ None) × ((device ≡ 0xFFFFFFFF) ⊎ (target_device ≡ 0xFFFFFFFF))) }
    ensures refused { result ≢ code_of Status.Done → collector.new ≡ collector.old }
    ensures codes { result ≢ code_of Status.Done → result ≢ code_of Status.Unknown → result ≢ code_of Status.BadUid →
        result ≡ code_of Status.OutOfMemory }
{
    let Some(want) = want_in(wants) else {
        return Status::Unknown.code();
    };
    let uid = Uid { maker, device };
    let target = Uid {
        maker: target_maker,
        device: target_device,
    };
    if uid.is_broadcast() || target.is_broadcast() {
        return Status::BadUid.code();
    }
    let made = DeviceCollector::new(alloc, uid, target, want);
    replace(alloc, collector, Endpoint::Collector(made)).code()
}

/// Sends a command: its request stands at the front of `request` then, and a transaction is open.
///
/// The numbers are unknown if the command class isn't discovery, GET or SET, whatever the handle holds. The
/// parameters QUEUED_MESSAGE and STATUS_MESSAGES are reserved for the collector; else it is busy while a transaction is
/// open; else more than 231 bytes of data are too long. If it is rejected, nothing changes.
#[unsafe(no_mangle)]
pub extern "C" fn felosumay_collector_ask_nonnull(
    alloc: Global,
    collector: &mut Handle,
    command: &CommandNumbers,
    load: &[u8],
    request: &mut [u8; MOST_SLOTS],
    count: &mut usize,
) -> u8
    ensures unknown { (result ≡ code_of Status.Unknown) ↔ (action_in command.now.command_class ≡ None) }
    ensures absent { IfSome (command_in command.now load.now) (λ c.
        (result ≡ code_of Status.Absent) ↔ (held_collector collector.old.held ≡ None)) }
    ensures refused { IfSome (command_in command.now load.now) (λ c. IfSome (held_collector collector.old.held) (λ s.
        result ≡ code_of (of_refusal (refusal_of (sender s) c)))) }
    ensures sent { IfSome (command_in command.now load.now) (λ c. IfSome (held_collector collector.old.held) (λ s.
        result ≡ code_of Status.Done → IsWritten count.new request.new (command_request (sender s) c))) }
    ensures after { IfSome (command_in command.now load.now) (λ c. IfSome (held_collector collector.old.held) (λ s.
        result ≡ code_of Status.Done → held_collector collector.new.held ≡ Some (after_ask s c))) }
    ensures same { result ≢ code_of Status.Done → collector.new.held ≡ collector.old.held }
{
    let Some(command) = command.command(load) else {
        return Status::Unknown.code();
    };
    let Some(mut endpoint) = take(alloc, collector) else {
        return Status::Absent.code();
    };
    let status = endpoint::collector::ask(&mut endpoint, &command, request, count);
    put(collector, endpoint);
    status.code()
}

/// Sends a poll for the target's next message, or for the last one again if the last poll wasn't answered, or was answered by
/// ACK_TIMER: its request stands at the front of `request` then, and a transaction is open. It is busy while one is open; else
/// memory for the answer may be refused. Nothing changes then.
#[unsafe(no_mangle)]
pub extern "C" fn felosumay_collector_poll(
    alloc: Global,
    collector: &mut Handle,
    request: &mut [u8; MOST_SLOTS],
    count: &mut usize,
) -> u8
    ensures absent { (result ≡ code_of Status.Absent) ↔ (held_collector collector.old.held ≡ None) }
    ensures busy { IfSome (held_collector collector.old.held) (λ s. (result ≡ code_of Status.Busy) ↔ IsSome s.transaction) }
    ensures sent { IfSome (held_collector collector.old.held) (λ s. result ≡ code_of Status.Done →
        IsWritten count.new request.new (poll_request (sender s))) }
    ensures after { IfSome (held_collector collector.old.held) (λ s. result ≡ code_of Status.Done →
        held_collector collector.new.held ≡ Some (after_poll s)) }
    ensures same { result ≢ code_of Status.Done → collector.new.held ≡ collector.old.held }
    ensures codes { result ≢ code_of Status.Done → result ≢ code_of Status.Absent → result ≢ code_of Status.Busy →
        result ≡ code_of Status.OutOfMemory }
{
    let Some(mut endpoint) = take(alloc, collector) else {
        return Status::Absent.code();
    };
    let status = endpoint::collector::poll(&mut endpoint, request, count);
    put(collector, endpoint);
    status.code()
}

/// Hears bytes, and tells what they are taken for: nothing; a message that answers the open poll, or a part of one, which is
/// recorded; the reply to the open command; or that the device rejects the poll, or needs time for it.
#[unsafe(no_mangle)]
pub extern "C" fn felosumay_collector_hear_nonnull(
    alloc: Global,
    collector: &mut Handle,
    bytes: &[u8],
    heard: &mut HeardNumbers,
) -> u8
    ensures status { result ≡ code_of (found (is_some (held_collector collector.old.held))) }
    ensures heard { IfSome (held_collector collector.old.held) (λ s. heard.new ≡ heard_numbers (heard_in s bytes.now)) }
    ensures after { IfSome (held_collector collector.old.held) (λ s.
        held_collector collector.new.held ≡ Some (after_hearing s bytes.now)) }
    ensures absent { result ≢ code_of Status.Done → collector.new.held ≡ collector.old.held }
{
    let Some(mut endpoint) = take(alloc, collector) else {
        return Status::Absent.code();
    };
    let status = endpoint::collector::hear(&mut endpoint, bytes, heard);
    put(collector, endpoint);
    status.code()
}

/// Ends the open transaction, if there is one, without an answer. A poll that ends so stays unanswered.
#[unsafe(no_mangle)]
pub extern "C" fn felosumay_collector_over(alloc: Global, collector: &mut Handle) -> u8
    ensures status { result ≡ code_of (found (is_some (held_collector collector.old.held))) }
    ensures after { IfSome (held_collector collector.old.held) (λ s.
        held_collector collector.new.held ≡ Some (after_over s)) }
    ensures absent { result ≢ code_of Status.Done → collector.new.held ≡ collector.old.held }
{
    let Some(mut endpoint) = take(alloc, collector) else {
        return Status::Absent.code();
    };
    let status = endpoint::collector::over(&mut endpoint);
    put(collector, endpoint);
    status.code()
}

/// Takes the first message, or part of one, that was recorded and not taken yet, and tells of it. There may be no more. The
/// collector forgets what was taken, and later messages take its room.
#[unsafe(no_mangle)]
pub extern "C" fn felosumay_collector_next(
    alloc: Global,
    collector: &mut Handle,
    message: &mut MessageNumbers,
) -> u8
    ensures next { IfSome (held_collector collector.old.held) (λ s. MessageTold result message.new (slice_get s.recorded 0)) }
    ensures after { IfSome (held_collector collector.old.held) (λ s. result ≡ code_of Status.Done →
        held_collector collector.new.held ≡ Some (after_next s)) }
    ensures absent { (result ≡ code_of Status.Absent) ↔ (held_collector collector.old.held ≡ None) }
    ensures same { result ≢ code_of Status.Done → collector.new.held ≡ collector.old.held }
{
    let Some(mut endpoint) = take(alloc, collector) else {
        return Status::Absent.code();
    };
    let status = endpoint::collector::next(&mut endpoint, message);
    put(collector, endpoint);
    status.code()
}

/// Gives up the collector that the handle holds, if any, and its memory; the handle is {0} then. NULL is no handle, and nothing
/// happens then.
#[unsafe(no_mangle)]
pub unsafe extern "C" fn felosumay_collector_free(alloc: Global, collector: *mut Handle)
    ghost handle: { Handle }
    requires address { Testable collector }
    requires* lent { sem 𝓛 (handle_at collector handle) }
    ensures* empty { sem 𝓛 (handle_at collector nobody) }
{
    free_at(alloc, collector);
}
