//! Values of a responder that outlive power-off, as C saves and restores them.

ghost use Rattle.std.specs.Prelude.{◌≡◌, ◌≢◌, ◌↔◌, min, nat_le, false, length, if◌then◌else◌, List, ℕ, MatchOption};
ghost use types.Logic.{sem};
ghost use Rattle.rdm_responder.specs.History.{History, Restored, then_event};
ghost use Rattle.rdm_responder.specs.Lawful.{IsLawful};
ghost use Rattle.rdm_responder.specs.Laws.{maker_of, values_of};
ghost use Rattle.rdm_saved.specs.Restoring.{restore_refusal, saved_len};
ghost use Rattle.rdm_updates.specs.Left.{left};
ghost use Rattle.rdm_c.specs.Left.{numbers_of};
ghost use Rattle.rdm_c.specs.Places.{writable_at};
ghost use Rattle.rdm_c.specs.Statuses.{code_of, of_restore_refusal};
ghost use Rattle.rdm_c.specs.Endpoints.{HeldFor, LeavesBytes, found, holds_responder};

use crate::endpoint;
use crate::handle::Handle;
use crate::keeping::{put, take};
use crate::left::LeftNumbers;
use crate::lent::writable_address_of;
use crate::status::Status;
use rdm_updates::left;
use std::alloc::Global;
use std::slice;

/// Tells how many bytes an image of the values has that outlive power-off.
#[unsafe(no_mangle)]
pub extern "C" fn felosumay_responder_saved_size(
    alloc: Global,
    responder: &mut Handle,
    count: &mut usize,
) -> u8
    ensures status { result ≡ code_of (found (holds_responder responder.old.held)) }
    ensures count { (h : History) → HeldFor responder.old.held h → count.new ≡ min (saved_len (values_of h)) usize.MAX }
    ensures same { responder.new.held ≡ responder.old.held }
{
    let Some(endpoint) = take(alloc, responder) else {
        return Status::Absent.code();
    };
    let status = endpoint::saving::saved_size(&endpoint, count);
    put(responder, endpoint);
    status.code()
}

/// Writes the image of the values that outlive power-off to the front of these bytes, and tells how many it has.
///
/// If there are fewer bytes, there is no room for the image, and nothing is written.
#[unsafe(no_mangle)]
pub unsafe extern "C" fn felosumay_responder_save(
    alloc: Global,
    responder: &mut Handle,
    image: *mut u8,
    len: usize,
    count: &mut usize,
) -> u8
    ghost before: { List ℕ }
    requires* lent { sem 𝓛 (writable_at image len before) }
    ensures told { (h : History) → HeldFor responder.old.held h →
        result ≡ code_of (if nat_le (saved_len (values_of h)) (length before) then Status.Done else Status.ShortImage) }
    ensures count { (h : History) → HeldFor responder.old.held h → result ≡ code_of Status.Done → count.new ≡ saved_len (values_of h) }
    ensures absent { (result ≡ code_of Status.Absent) ↔ (holds_responder responder.old.held ≡ false) }
    ensures same { responder.new.held ≡ responder.old.held }
    ensures* saved { ∃ₛ (λ (after : List ℕ). sem 𝓛 (writable_at image len after)
        ∗ ⌜ LeavesBytes responder.old.held result count.new before after ⌝) }
{
    save_slice(
        alloc,
        responder,
        slice::from_raw_parts_mut(writable_address_of(image, len), len),
        count,
    )
}

/// As `felosumay_responder_save`, of the bytes that are lent.
fn save_slice(alloc: Global, responder: &mut Handle, image: &mut [u8], count: &mut usize) -> u8
    ensures told { (h : History) → HeldFor responder.old.held h →
        result ≡ code_of (if nat_le (saved_len (values_of h)) (length image.old) then Status.Done else Status.ShortImage) }
    ensures count { (h : History) → HeldFor responder.old.held h → result ≡ code_of Status.Done → count.new ≡ saved_len (values_of h) }
    ensures absent { (result ≡ code_of Status.Absent) ↔ (holds_responder responder.old.held ≡ false) }
    ensures same { responder.new.held ≡ responder.old.held }
    ensures saved { LeavesBytes responder.old.held result count.new image.old image.new }
{
    let Some(endpoint) = take(alloc, responder) else {
        return Status::Absent.code();
    };
    let status = endpoint::saving::save(&endpoint, image, count);
    put(responder, endpoint);
    status.code()
}

/// Restores the values from an image that `felosumay_responder_save` wrote, as firmware does when the fixture was switched on:
/// at once, and with no message. The number of power cycles is one more than was saved (E1.20 section 10.8.6).
///
/// After an update of the firmware it may be an image of the version before: then those values are restored that both versions know, as far
/// as this one can have them. If the image has another length than it says, that comes first, then that it is altered, and last that it is of
/// another manufacturer or model. Nothing changes then.
#[unsafe(no_mangle)]
pub extern "C" fn felosumay_responder_restore_nonnull(
    alloc: Global,
    responder: &mut Handle,
    image: &[u8],
) -> u8
    ensures told { (h : History) → HeldFor responder.old.held h →
        result ≡ code_of (of_restore_refusal (restore_refusal (maker_of h) (values_of h) image.now)) }
    ensures lawful { (h : History) → IsLawful h → HeldFor responder.old.held h →
        ((result ≡ code_of Status.Done) ↔ IsLawful (then_event h (Restored image.now))) }
    ensures stands { (h : History) → HeldFor responder.old.held h → result ≡ code_of Status.Done →
        HeldFor responder.new.held (then_event h (Restored image.now)) }
    ensures absent { (result ≡ code_of Status.Absent) ↔ (holds_responder responder.old.held ≡ false) }
    ensures same { result ≢ code_of Status.Done → responder.new.held ≡ responder.old.held }
{
    let Some(mut endpoint) = take(alloc, responder) else {
        return Status::Absent.code();
    };
    let status = endpoint::saving::restore(&mut endpoint, image);
    put(responder, endpoint);
    status.code()
}

/// Tells which value of an older image, from this number on, a newer image doesn't have. After an update, the older one is that which was
/// restored, and the newer one was saved then. DEVICE_POWER_CYCLES is among them, since it has counted one more.
///
/// If there is none, nothing is written.
#[unsafe(no_mangle)]
pub extern "C" fn felosumay_saved_left_nonnull(
    older: &[u8],
    newer: &[u8],
    from: usize,
    value: &mut LeftNumbers,
) -> u8
    ensures told { MatchOption (left older.now newer.now from) (result ≡ code_of Status.NoMore)
        (λ found. (result ≡ code_of Status.Done) × (value.new ≡ numbers_of found)) }
    ensures same { result ≢ code_of Status.Done → value.new ≡ value.old }
{
    let Some(found) = left(older, newer, from) else {
        return Status::NoMore.code();
    };
    *value = LeftNumbers::of(&found);
    Status::Done.code()
}
