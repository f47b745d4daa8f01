//! Values that outlive power-off.

ghost use Rattle.std.specs.Prelude.{◌≡◌, ◌++◌, min, nat_le, length, drop, OnOk, OnErr, IfOk, Some, None, if◌then◌else◌};
ghost use Rattle.std.specs.Result.{result_err};
ghost use Rattle.rdm_saved.specs.declared.errors.SaveError.TheVariants.{Short};
ghost use Rattle.rdm_saved.specs.SavedText.{saved_text};
ghost use Rattle.rdm_saved.specs.Restoring.{saved_len, restored, restore_refusal};
ghost use Rattle.rdm_saved.specs.Laws.{IsWhole, AreTexts, AreWhole};
ghost use Rattle.rdm_profile.specs.Values.{long_slots};
ghost use Rattle.rdm_commands.specs.Commands.Saving.{one_more, powered_on};

use super::Devices;
use rdm_saved::{RestoreError, SaveError, restore, save_into, saved_len};

impl Devices {
    /// How many bytes `save_into` writes, or `usize::MAX` if they are more.
    pub fn saved_len(&self) -> usize
        ensures { result ≡ min (saved_len self.now) usize.MAX }
    {
        saved_len(&self.profile, &self.own, self.subs.as_slice())
    }

    /// Writes the image of the values that outlive power-off to the front of these bytes, and tells how many it has. It says the
    /// manufacturer ID of the fixture.
    ///
    /// It is `Short` if there are fewer bytes, and then nothing is written.
    pub fn save_into(&self, maker: u16, image: &mut [u8]) -> Result<usize, SaveError>
        ensures written { IfOk result (λ n. (n ≡ saved_len self.now) × (image.new ≡ saved_text maker self.now ++ drop n image.old)) }
        ensures whole { IfOk result (λ n. IsWhole self.now.root × AreTexts self.now.added × AreWhole self.now.subs) }
        ensures refused { result_err result ≡ (if nat_le (saved_len self.now) (length image.old) then None else Some Short) }
        ensures same { OnErr result (image.new ≡ image.old) }
    {
        save_into(
            maker,
            &self.profile,
            &self.root,
            &self.own,
            self.subs.as_slice(),
            image,
        )
    }

    /// Restores the values from an image of a fixture of the same manufacturer and model: all that last, if it was saved with the same
    /// profile; else, after an update, those that both versions know, as far as this one can have them. Those of the moment stay as they
    /// are.
    ///
    /// An image is refused as `RestoreError` says, and then nothing changes.
    pub fn restore(&mut self, maker: u16, image: &[u8]) -> Result<(), RestoreError>
        ensures refused { result_err result ≡ restore_refusal maker self.old image.now }
        ensures after { OnOk result (self.new ≡ restored self.old image.now) }
        ensures same { OnErr result (self.new ≡ self.old) }
    {
        restore(
            maker,
            &self.profile,
            &mut self.root,
            &mut self.own,
            self.subs.as_mut_slice(),
            image,
        )
    }
    /// Counts one more power cycle, as a fixture does when it is switched on (E1.20 section 10.8.6). The count stays at
    /// 4,294,967,295.
    #[tactic(auto, unfolding(crate::specs::Commands::Saving::powered_on), using(crate::proofs::PowerOns::root_counts))]
    pub fn count_power_on(&mut self)
        ensures after { self.new ≡ powered_on self.old }
    {
        self.own.power_cycles = one_more(self.own.power_cycles);
    }
}

/// A count and one more, if a number can say it.
#[tactic(auto, using(crate::proofs::PowerOns::one_more_is))]
fn one_more(count: u32) -> u32
    ensures { long_slots result ≡ one_more (long_slots count) }
{
    count.saturating_add(1)
}
