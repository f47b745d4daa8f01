//! Values that outlive power-off.

ghost use Rattle.std.specs.Prelude.{◌≡◌, ◌++◌, ◌↔◌, min, nat_le, length, drop, IsOk, OnOk, OnErr, IfOk, Some, None, if◌then◌else◌};
ghost use Rattle.std.specs.Result.{result_err};
ghost use Rattle.rdm_params.specs.Commands.Saving.{powered_on};
ghost use Rattle.rdm_responder.specs.History.{History, Restored, then_event};
ghost use Rattle.rdm_responder.specs.Lawful.{IsLawful};
ghost use Rattle.rdm_responder.specs.Laws.{maker_of, values_of};
ghost use Rattle.rdm_responder.specs.StandsFor.{StandsFor};
ghost use Rattle.rdm_saved.specs.declared.errors.SaveError.TheVariants.{Short};
ghost use Rattle.rdm_saved.specs.Laws.{IsWhole, AreTexts, AreWhole};
ghost use Rattle.rdm_saved.specs.Restoring.{saved_len, restored, restore_refusal};
ghost use Rattle.rdm_saved.specs.SavedText.{saved_text};

use crate::Responder;
use rdm_params::{Devices, RestoreError, SaveError};

impl Responder {
    /// How many bytes `save_into` writes, or `usize::MAX` if they are more.
    pub fn saved_len(&self) -> usize
        ensures { (h : History) → StandsFor self.now h → result ≡ min (saved_len (values_of h)) usize.MAX }
    {
        self.devices.saved_len()
    }

    /// Writes the image of the values that outlive power-off to the front of these bytes, and tells how many it has. It says the
    /// manufacturer ID of the fixture.
    ///
    /// It is `Short` if there are fewer bytes, and then nothing is written.
    pub fn save_into(&self, image: &mut [u8]) -> Result<usize, SaveError>
        ensures written { IfOk result (λ n. (h : History) → StandsFor self.now h →
            (n ≡ saved_len (values_of h)) × (image.new ≡ saved_text (maker_of h) (values_of h) ++ drop n image.old)) }
        ensures whole { IfOk result (λ n. (h : History) → StandsFor self.now h →
            IsWhole (values_of h).root × AreTexts (values_of h).added × AreWhole (values_of h).subs) }
        ensures refused { (h : History) → StandsFor self.now h →
            result_err result ≡ (if nat_le (saved_len (values_of h)) (length image.old) then None else Some Short) }
        ensures same { OnErr result (image.new ≡ image.old) }
    {
        self.devices.save_into(self.uid.maker, image)
    }

    /// Restores the values from an image that `save_into` wrote, as firmware does when the fixture was switched on: at
    /// once, and with no message. It may be an image of another version of the same model, from before an update: then those values are
    /// restored that both versions know, as far as this one can have them, and the others stay. The number of power cycles is one more than was saved (E1.20 section 10.8.6), and stays at
    /// 4,294,967,295. Jobs, messages and status entries stay, and so do the values of the moment.
    ///
    /// An image is refused as `RestoreError` says, and then nothing changes.
    pub fn restore(&mut self, image: &[u8]) -> Result<(), RestoreError>
        ensures lawful { (h : History) → IsLawful h → StandsFor self.old h →
            (IsOk result ↔ IsLawful (then_event h (Restored image.now))) }
        ensures refused { (h : History) → StandsFor self.old h → result_err result ≡ restore_refusal (maker_of h) (values_of h) image.now }
        ensures stands { OnOk result ((h : History) → StandsFor self.old h →
            StandsFor self.new (then_event h (Restored image.now))) }
        ensures same { OnErr result (self.new ≡ self.old) }
    {
        power_on(&mut self.devices, self.uid.maker, image)
    }
}

/// Restores the values and counts one more power cycle, unless the image is refused.
fn power_on(devices: &mut Devices, maker: u16, image: &[u8]) -> Result<(), RestoreError>
    ensures refused { result_err result ≡ restore_refusal maker devices.old image.now }
    ensures after { OnOk result (devices.new ≡ powered_on (restored devices.old image.now)) }
    ensures same { OnErr result (devices.new ≡ devices.old) }
{
    devices.restore(maker, image)?;
    devices.count_power_on();
    Ok(())
}
