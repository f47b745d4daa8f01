//! Values of a responder that outlive power-off, for C.

ghost use Rattle.std.specs.Prelude.{◌≡◌, ◌≢◌, ◌↔◌, ◌++◌, min, nat_le, false, length, drop, if◌then◌else◌};
ghost use Rattle.rdm_responder.specs.History.{History, Restored, then_event};
ghost use Rattle.rdm_responder.specs.Lawful.{IsLawful};
ghost use Rattle.rdm_responder.specs.Laws.{maker_of, values_of};
ghost use Rattle.rdm_responder.specs.StandsFor.{StandsFor};
ghost use Rattle.rdm_saved.specs.Restoring.{restore_refusal, saved_len};
ghost use Rattle.rdm_saved.specs.SavedText.{saved_text};
ghost use Rattle.rdm_c.specs.Statuses.{of_restore_refusal};
ghost use Rattle.rdm_c.specs.Endpoints.{IsFor, found, is_responder};

use crate::endpoint::{Endpoint, RunningResponder};
use crate::status::Status;
use rdm_params::{RestoreError, SaveError};

/// Tells how many bytes an image of the values has.
pub(crate) fn saved_size(endpoint: &Endpoint, count: &mut usize) -> Status
    ensures status { result ≡ found (is_responder endpoint.now) }
    ensures count { (h : History) → IsFor endpoint.now h → count.new ≡ min (saved_len (values_of h)) usize.MAX }
{
    let Endpoint::Responder(running) = endpoint else {
        return Status::Absent;
    };
    *count = running.responder.saved_len();
    Status::Done
}

/// Writes the image of the values to the front of these bytes, and tells how many it has.
pub(crate) fn save(endpoint: &Endpoint, image: &mut [u8], count: &mut usize) -> Status
    ensures told { (h : History) → IsFor endpoint.now h →
        result ≡ (if nat_le (saved_len (values_of h)) (length image.old) then Status.Done else Status.ShortImage) }
    ensures written { (h : History) → IsFor endpoint.now h → result ≡ Status.Done →
        (count.new ≡ saved_len (values_of h)) × (image.new ≡ saved_text (maker_of h) (values_of h) ++ drop count.new image.old) }
    ensures absent { (result ≡ Status.Absent) ↔ (is_responder endpoint.now ≡ false) }
    ensures same { result ≢ Status.Done → image.new ≡ image.old }
{
    let Endpoint::Responder(running) = endpoint else {
        return Status::Absent;
    };
    match running.responder.save_into(image) {
        Ok(written) => {
            *count = written;
            Status::Done
        }
        Err(SaveError::Short) => Status::ShortImage,
    }
}

/// Restores the values from an image.
pub(crate) fn restore(endpoint: &mut Endpoint, image: &[u8]) -> Status
    ensures told { (h : History) → IsFor endpoint.old h →
        result ≡ of_restore_refusal (restore_refusal (maker_of h) (values_of h) image.now) }
    ensures lawful { (h : History) → IsLawful h → IsFor endpoint.old h →
        ((result ≡ Status.Done) ↔ IsLawful (then_event h (Restored image.now))) }
    ensures stands { (h : History) → IsFor endpoint.old h → result ≡ Status.Done →
        IsFor endpoint.new (then_event h (Restored image.now)) }
    ensures absent { (result ≡ Status.Absent) ↔ (is_responder endpoint.old ≡ false) }
    ensures same { result ≢ Status.Done → endpoint.new ≡ endpoint.old }
{
    match endpoint {
        Endpoint::Responder(running) => restore_values(running, image),
        Endpoint::Collector(_) | Endpoint::Searcher(_) => Status::Absent,
    }
}

/// Restores the values from an image, as `restore`.
fn restore_values(running: &mut RunningResponder, image: &[u8]) -> Status
    ensures told { (h : History) → StandsFor running.old.responder h →
        result ≡ of_restore_refusal (restore_refusal (maker_of h) (values_of h) image.now) }
    ensures lawful { (h : History) → IsLawful h → StandsFor running.old.responder h →
        ((result ≡ Status.Done) ↔ IsLawful (then_event h (Restored image.now))) }
    ensures stands { (h : History) → StandsFor running.old.responder h → result ≡ Status.Done →
        StandsFor running.new.responder (then_event h (Restored image.now)) }
    ensures found { result ≢ Status.Absent }
    ensures same { result ≢ Status.Done → running.new ≡ running.old }
{
    match running.responder.restore(image) {
        Ok(()) => Status::Done,
        Err(RestoreError::Length) => Status::ImageLength,
        Err(RestoreError::Altered) => Status::AlteredImage,
        Err(RestoreError::OfAnother) => Status::ForeignImage,
    }
}
