//! What a person changes at the fixture's own menu, as C tells of it.

ghost use Rattle.std.specs.Prelude.{◌≡◌, ◌≢◌, ◌↔◌, ◌≤◌, ◌<◌, false, length};
ghost use Rattle.rdm_commands.specs.declared.panel.Change.{Change};
ghost use Rattle.rdm_commands.specs.declared.panel.Change.TheVariants.{Start, Personality, Label};
ghost use Rattle.rdm_responder.specs.History.{History, Changed, then_event};
ghost use Rattle.rdm_c.specs.Statuses.{code_of};
ghost use Rattle.rdm_c.specs.Endpoints.{HeldFor, changed, holds_responder};

use crate::endpoint;
use crate::handle::Handle;
use crate::keeping::{put, take};
use crate::status::Status;
use rdm_params::{Change, Plate};
use std::alloc::Global;

/// Changes the DMX512 start address of the root (E1.20 section 10.6.3), as a person does at the fixture's own menu, and
/// queues the message that tells the controller. It is out of range, and nothing changes, if a SET of the address would
/// be. If there is no room for the message, nothing changes either, whatever the address.
#[unsafe(no_mangle)]
pub extern "C" fn felosumay_responder_change_start(
    alloc: Global,
    responder: &mut Handle,
    start: u16,
) -> u8
    ensures told { (h : History) → HeldFor responder.old.held h → result ≡ code_of (changed h (Start start)) }
    ensures stands { (h : History) → HeldFor responder.old.held h → result ≢ code_of Status.NoRoom →
        HeldFor responder.new.held (then_event h (Changed (Start start))) }
    ensures no_room { result ≡ code_of Status.NoRoom → responder.new.held ≡ responder.old.held }
    ensures absent { (result ≡ code_of Status.Absent) ↔ (holds_responder responder.old.held ≡ false) }
    ensures same { holds_responder responder.old.held ≡ false → responder.new.held ≡ responder.old.held }
{
    change(alloc, responder, Change::Start(start)).code()
}

/// Changes the personality of the root, from 1 (E1.20 section 10.6.1), as `felosumay_responder_change_start` does the
/// start address.
#[unsafe(no_mangle)]
pub extern "C" fn felosumay_responder_change_personality(
    alloc: Global,
    responder: &mut Handle,
    number: u8,
) -> u8
    ensures told { (h : History) → HeldFor responder.old.held h → result ≡ code_of (changed h (Personality number)) }
    ensures stands { (h : History) → HeldFor responder.old.held h → result ≢ code_of Status.NoRoom →
        HeldFor responder.new.held (then_event h (Changed (Personality number))) }
    ensures no_room { result ≡ code_of Status.NoRoom → responder.new.held ≡ responder.old.held }
    ensures absent { (result ≡ code_of Status.Absent) ↔ (holds_responder responder.old.held ≡ false) }
    ensures same { holds_responder responder.old.held ≡ false → responder.new.held ≡ responder.old.held }
{
    change(alloc, responder, Change::Personality(number)).code()
}

/// Changes the label of the root (E1.20 section 10.5.5), as `felosumay_responder_change_start` does the start address. It
/// is too long, whatever the handle holds, if it has more than 32 bytes, and nothing changes then.
#[unsafe(no_mangle)]
pub extern "C" fn felosumay_responder_change_label_nonnull(
    alloc: Global,
    responder: &mut Handle,
    label: &[u8],
) -> u8
    ensures too_long { (result ≡ code_of Status.TooLong) ↔ (32 < length label.now) }
    ensures told { (h : History) → HeldFor responder.old.held h → length label.now ≤ 32 → result ≡ code_of (changed h (Label label.now)) }
    ensures stands { (h : History) → HeldFor responder.old.held h → length label.now ≤ 32 → result ≢ code_of Status.NoRoom →
        HeldFor responder.new.held (then_event h (Changed (Label label.now))) }
    ensures no_room { result ≡ code_of Status.NoRoom → responder.new.held ≡ responder.old.held }
    ensures refused { result ≡ code_of Status.TooLong → responder.new.held ≡ responder.old.held }
    ensures absent { (result ≡ code_of Status.Absent)
        ↔ ((length label.now ≤ 32) × (holds_responder responder.old.held ≡ false)) }
    ensures same { holds_responder responder.old.held ≡ false → responder.new.held ≡ responder.old.held }
{
    let Some(plate) = Plate::new(label) else {
        return Status::TooLong.code();
    };
    change(alloc, responder, Change::Label(plate)).code()
}

/// Changes a parameter of the root.
fn change(alloc: Global, responder: &mut Handle, change: Change) -> Status
    ensures told { (h : History) → HeldFor responder.old.held h → result ≡ changed h change }
    ensures stands { (h : History) → HeldFor responder.old.held h → result ≢ Status.NoRoom →
        HeldFor responder.new.held (then_event h (Changed change)) }
    ensures no_room { result ≡ Status.NoRoom → responder.new.held ≡ responder.old.held }
    ensures absent { (result ≡ Status.Absent) ↔ (holds_responder responder.old.held ≡ false) }
    ensures same { holds_responder responder.old.held ≡ false → responder.new.held ≡ responder.old.held }
    ensures short { result ≢ Status.TooLong }
{
    let Some(mut endpoint) = take(alloc, responder) else {
        return Status::Absent;
    };
    let status = endpoint::responder::change(&mut endpoint, change);
    put(responder, endpoint);
    status
}
