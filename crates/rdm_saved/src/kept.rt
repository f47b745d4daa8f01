//! All values, as one image.

ghost use Rattle.std.specs.Prelude.{◌≡◌, ◌≤◌, ◌==◌, ◌+◌, ◌*◌, ◌++◌, min, nat_le, bytes_eq, map, length, take, drop, OnOk, OnErr, IfOk, Some, None, if◌then◌else◌};
ghost use Rattle.std.specs.Result.{result_err};
ghost use Rattle.rdm_saved.specs.declared.errors.SaveError.TheVariants.{Short};
ghost use Rattle.rdm_profile.specs.Values.{word_slots};
ghost use Rattle.rdm_saved.specs.SavedText.{kept, profile_text, saved_text, values_text};
ghost use Rattle.rdm_saved.specs.SameProfile.{profile_size, restored_whole, restored_device, restored_added, restored_devices};
ghost use Rattle.rdm_saved.specs.Carrying.{said_len};
ghost use Rattle.rdm_saved.specs.Restoring.{saved_len, restored, restore_refusal, is_sound, is_of_model, says_profile, wanted_len};
ghost use Rattle.rdm_saved.specs.Laws.{IsWhole, AreTexts, AreWhole};
ghost use Rattle.rdm_added.specs.Views.State.{common_entries, own_entries, added_entries};

use crate::carrying::carry_over;
use crate::profile_text::{head_text, profile_len, profile_text};
use crate::restoring::{restore_common, restore_each, restore_own};
use crate::said::said_len;
use crate::saving::{
    COMMON_BYTES, KEPT_BYTES, OWN_BYTES, own_text, save_added, save_common, save_each,
    save_sensors, sum_of,
};
use crate::{RestoreError, SaveError};
use rdm_device::{CommonValues, Profile, RootValues};

/// How many bytes say the manufacturer.
const MAKER_BYTES: usize = 2;

/// How many bytes the sum has.
const SUM_BYTES: usize = 4;

/// How many bytes `save_into` writes, or `usize::MAX` if they are more.
#[tactic(auto, using(crate::proofs::Sizes::len_is))]
pub fn saved_len(profile: &Profile, own: &RootValues, subs: &[CommonValues]) -> usize
    ensures { (root : CommonValues) → result ≡ min (saved_len (kept profile.now root own.now subs.now)) usize.MAX }
{
    image_len(profile, own, subs)
}

/// Writes the image of the values to the front of these bytes, and tells how many it has. It says the manufacturer ID of the fixture.
///
/// It is `Short` if there are fewer bytes, and then nothing is written.
#[tactic(auto, unfolding(crate::specs::SavedText::saved_text), using(crate::proofs::Sizes::len_is))]
pub fn save_into(
    maker: u16,
    profile: &Profile,
    root: &CommonValues,
    own: &RootValues,
    subs: &[CommonValues],
    image: &mut [u8],
) -> Result<usize, SaveError>
    ensures written { IfOk result (λ n. (n ≡ saved_len (kept profile.now root.now own.now subs.now))
        × (image.new ≡ saved_text maker (kept profile.now root.now own.now subs.now) ++ drop n image.old)) }
    // Of its image the law of `saved_is_restored` speaks.
    ensures whole { IfOk result (λ n. IsWhole (common_entries root.now ++ own_entries own.now) × AreTexts (added_entries own.now.added.items)
        × AreWhole (map common_entries subs.now)) }
    ensures refused { result_err result
        ≡ (if nat_le (saved_len (kept profile.now root.now own.now subs.now)) (length image.old) then None else Some Short) }
    ensures same { OnErr result (image.new ≡ image.old) }
{
    let len = image_len(profile, own, subs);
    if image.len() < len {
        return Err(SaveError::Short);
    }
    let (front, _) = image.split_at_mut(len);
    write_image(maker, profile, root, own, subs, front);
    Ok(len)
}

/// Restores the values from an image of a fixture of the same manufacturer and model: all that last, if it was saved with the same
/// profile; else, after an update, those that both versions know, as far as this one can have them. Those of the moment stay as they are.
///
/// An image is refused as `RestoreError` says, and then nothing changes.
#[tactic(auto, unfolding(crate::specs::Restoring::restored))]
pub fn restore(
    maker: u16,
    profile: &Profile,
    root: &mut CommonValues,
    own: &mut RootValues,
    subs: &mut [CommonValues],
    image: &[u8],
) -> Result<(), RestoreError>
    ensures refused { result_err result ≡ restore_refusal maker (kept profile.now root.old own.old subs.old) image.now }
    ensures after { OnOk result (kept profile.now root.new own.new subs.new
        ≡ restored (kept profile.now root.old own.old subs.old) image.now) }
    ensures same { OnErr result (kept profile.now root.new own.new subs.new ≡ kept profile.now root.old own.old subs.old) }
{
    if test(maker, profile, root, own, subs, image)? {
        let (_, values) = image.split_at(profile_len(profile));
        restore_parts(root, own, subs, values);
    } else {
        carry_over(profile, root, own, subs, image);
    }
    Ok(())
}

/// Refuses an image as `restore` does, and says whether it was saved with the same profile.
fn test(
    maker: u16,
    profile: &Profile,
    root: &CommonValues,
    own: &RootValues,
    subs: &[CommonValues],
    image: &[u8],
) -> Result<bool, RestoreError>
    ensures refused { result_err result ≡ restore_refusal maker (kept profile.now root.now own.now subs.now) image.now }
    ensures same { IfOk result (λ same. same ≡ says_profile (kept profile.now root.now own.now subs.now) image.now) }
    ensures long { IfOk result (λ same. length image.now ≡ wanted_len (kept profile.now root.now own.now subs.now) image.now) }
{
    let is_same = says(profile, added_count(own), image);
    if !has_wanted_len(is_same, profile, own, subs, image) {
        return Err(RestoreError::Length);
    }
    if !is_sound(image) {
        return Err(RestoreError::Altered);
    }
    if !is_of_model(maker, profile, image) {
        return Err(RestoreError::OfAnother);
    }
    Ok(is_same)
}

/// Restores the values from the bytes behind those that say the profile.
#[tactic(auto, unfolding(crate::specs::Restoring::restored))]
fn restore_parts(
    root: &mut CommonValues,
    own: &mut RootValues,
    subs: &mut [CommonValues],
    bytes: &[u8],
)
    requires { length bytes.now ≡ 65 + 2 * length own.old.sensors.items + 37 * length own.old.added.items + 46 * length subs.old }
    ensures root { common_entries root.new ++ own_entries own.new
        ≡ restored_device (common_entries root.old ++ own_entries own.old) bytes.now }
    ensures added { added_entries own.new.added.items
        ≡ restored_added (added_entries own.old.added.items) (drop (61 + 2 * length own.old.sensors.items) bytes.now) }
    ensures subs { map common_entries subs.new ≡ restored_devices (map common_entries subs.old)
        (drop (61 + 2 * length own.old.sensors.items + 37 * length own.old.added.items) bytes.now) }
{
    let (common, rest) = bytes.split_at(COMMON_BYTES);
    let (beside, rest) = rest.split_at(OWN_BYTES + 2 * own.sensors.len());
    let (added, rest) = rest.split_at(KEPT_BYTES * added_count(own));
    let (each, _) = rest.split_at(COMMON_BYTES * subs.len());
    restore_common(root, common);
    restore_own(own, beside, added);
    restore_each(subs, each);
}

/// How many parameters the maker added.
fn added_count(own: &RootValues) -> usize
    ensures { result ≡ length own.now.added.items }
{
    own.added.len()
}

/// Whether an image has as many bytes as one of these values, if it is of the same profile, and else as many as it says.
fn has_wanted_len(
    is_same: bool,
    profile: &Profile,
    own: &RootValues,
    subs: &[CommonValues],
    image: &[u8],
) -> bool
    ensures { result ≡ (if is_same then length image.now == (88 + 4 * length profile.now.particulars.own + 2 * length profile.now.particulars.without.items
        + 2 * length own.now.sensors.items + 37 * length own.now.added.items + 46 * length subs.now) else length image.now == said_len image.now) }
{
    if is_same {
        image.len() == image_len(profile, own, subs)
    } else {
        image.len() == said_len(image)
    }
}

/// Whether an image says this profile, of which so many values are kept of the parameters that the maker adds.
fn says(profile: &Profile, kept: usize, image: &[u8]) -> bool
    ensures { result ≡ bytes_eq (drop 2 (take (profile_size profile.now) image.now)) (profile_text profile.now kept) }
{
    match image.get(MAKER_BYTES..profile_len(profile)) {
        Some(said) => said == profile_text(profile, kept).as_slice(),
        None => false,
    }
}

/// Whether an image is of this manufacturer and model.
fn is_of_model(maker: u16, profile: &Profile, image: &[u8]) -> bool
    ensures { result ≡ bytes_eq (take 4 image.now) (word_slots maker ++ word_slots profile.now.root.model) }
{
    let maker = maker.to_be_bytes();
    let model = profile.root.model.to_be_bytes();
    match image.get(..4) {
        Some(said) => said == [maker[0], maker[1], model[0], model[1]].as_slice(),
        None => false,
    }
}

/// Whether the last four bytes are the sum of the others.
fn is_sound(image: &[u8]) -> bool
    requires { 4 ≤ length image.now }
    ensures { result ≡ is_sound image.now }
{
    let (values, sum) = image.split_at(image.len() - SUM_BYTES);
    sum == sum_of(values).to_be_bytes().as_slice()
}

/// How many bytes an image has, or `usize::MAX` if they are more.
fn image_len(profile: &Profile, own: &RootValues, subs: &[CommonValues]) -> usize
    ensures { result ≡ min (88 + 4 * length profile.now.particulars.own + 2 * length profile.now.particulars.without.items
        + 2 * length own.now.sensors.items + 37 * length own.now.added.items + 46 * length subs.now) usize.MAX }
{
    let fixed = profile_len(profile) + COMMON_BYTES + OWN_BYTES + 2 * own.sensors.len() + SUM_BYTES;
    fixed
        .saturating_add(KEPT_BYTES.saturating_mul(own.added.len()))
        .saturating_add(COMMON_BYTES.saturating_mul(subs.len()))
}

/// Writes an image.
#[tactic(auto, unfolding(crate::specs::SavedText::saved_text))]
fn write_image(
    maker: u16,
    profile: &Profile,
    root: &CommonValues,
    own: &RootValues,
    subs: &[CommonValues],
    out: &mut [u8],
)
    requires { length out.old ≡ 88 + 4 * length profile.now.particulars.own + 2 * length profile.now.particulars.without.items
        + 2 * length own.now.sensors.items + 37 * length own.now.added.items + 46 * length subs.now }
    ensures text { out.new ≡ saved_text maker (kept profile.now root.now own.now subs.now) }
    ensures whole { IsWhole (common_entries root.now ++ own_entries own.now) × AreTexts (added_entries own.now.added.items)
        × AreWhole (map common_entries subs.now) }
{
    let (values, sum) = out.split_at_mut(out.len() - SUM_BYTES);
    write_values(maker, profile, root, own, subs, values);
    sum.copy_from_slice(&sum_of(values).to_be_bytes());
}

/// Writes all but the sum.
#[tactic(auto, using(crate::proofs::Whole::root_whole, crate::proofs::Profiles::text_size))]
fn write_values(
    maker: u16,
    profile: &Profile,
    root: &CommonValues,
    own: &RootValues,
    subs: &[CommonValues],
    out: &mut [u8],
)
    requires { length out.old ≡ 84 + 4 * length profile.now.particulars.own + 2 * length profile.now.particulars.without.items
        + 2 * length own.now.sensors.items + 37 * length own.now.added.items + 46 * length subs.now }
    ensures text { out.new ≡ values_text maker (kept profile.now root.now own.now subs.now) }
    ensures whole { IsWhole (common_entries root.now ++ own_entries own.now) × AreTexts (added_entries own.now.added.items)
        × AreWhole (map common_entries subs.now) }
{
    let (front, rest) = out.split_at_mut(profile_len(profile));
    let (common, rest) = rest.split_at_mut(COMMON_BYTES);
    let (beside, rest) = rest.split_at_mut(OWN_BYTES);
    let (sensors, rest) = rest.split_at_mut(2 * own.sensors.len());
    let (added, each) = rest.split_at_mut(KEPT_BYTES * own.added.len());
    front.copy_from_slice(head_text(maker, profile, added_count(own)).as_slice());
    save_common(root, common);
    beside.copy_from_slice(&own_text(own));
    save_sensors(own.sensors.as_slice(), sensors);
    save_added(own.added.as_slice(), added);
    save_each(subs, each);
}
