//! What an image says of the profile.

ghost use Rattle.std.specs.Prelude.{◌≡◌, ◌+◌, ◌*◌, ◌≤◌, ◌++◌, length, min, flat_map};
ghost use Rattle.rdm_profile.specs.Values.{word_slots};
ghost use Rattle.rdm_saved.specs.SavedText.{devices_text, own_text, profile_text, unit_text};
ghost use Rattle.rdm_saved.specs.SameProfile.{profile_size};

use rdm_device::columns::added::{data_type_of, size_of};
use rdm_device::{ParameterDef, Profile, Unit};
use rdm_frame::Body;

/// How many bytes say whose the devices are, and what they are.
const DEVICES_BYTES: usize = 23;

/// How many bytes an image has that say the manufacturer and the profile.
pub(crate) fn profile_len(profile: &Profile) -> usize
    ensures size { result ≡ profile_size profile.now }
    ensures few { result ≤ 231 }
{
    DEVICES_BYTES + 4 * profile.particulars.own().len() + 2 * profile.particulars.without().len()
}

/// What an image says of the manufacturer and the profile.
pub(crate) fn head_text(maker: u16, profile: &Profile, kept: usize) -> Body
    ensures text { result ≡ word_slots maker ++ profile_text profile.now kept }
    ensures size { length result ≡ profile_size profile.now }
{
    let mut text = Body::new();
    text.append(&maker.to_be_bytes());
    text.append(profile_text(profile, kept).as_slice());
    text
}

/// What an image says of the profile, where so many values are kept of the parameters that the maker adds.
pub(crate) fn profile_text(profile: &Profile, kept: usize) -> Body
    ensures text { result ≡ profile_text profile.now kept }
    ensures size { length result + 2 ≡ profile_size profile.now }
    ensures few { length result ≤ 229 }
{
    let mut text = Body::new();
    text.append(&devices_text(profile, kept));
    append_own(profile.particulars.own(), &mut text);
    append_without(profile.particulars.without(), &mut text);
    text
}

/// Appends what is said of each parameter that the maker adds.
#[tactic(auto, using(crate::proofs::Profiles::own_step, std::proofs::lemmas::Grind::common_steps))]
fn append_own(defs: &[ParameterDef], text: &mut Body)
    requires { length text.old + 4 * length defs.now ≤ 231 }
    ensures after { text.new ≡ text.old ++ flat_map own_text defs.now }
    ensures size { length text.new ≡ length text.old + 4 * length defs.now }
{
    for i in 0..defs.len() {
        text.append(&own_text(&defs[i]));
    }
}

/// The PID, and which data it has.
pub(crate) fn own_text(def: &ParameterDef) -> [u8; 4]
    ensures { result ≡ own_text def.now }
{
    let pid = def.pid.to_be_bytes();
    [pid[0], pid[1], data_type_of(def.shape), size_of(def.shape)]
}

/// Appends PIDs.
#[tactic(auto, using(rdm_device::proofs::ListSteps::codes_step, std::proofs::lemmas::Grind::common_steps))]
fn append_without(pids: &[u16], text: &mut Body)
    requires { length text.old + 2 * length pids.now ≤ 231 }
    ensures after { text.new ≡ text.old ++ flat_map word_slots pids.now }
    ensures size { length text.new ≡ length text.old + 2 * length pids.now }
{
    for i in 0..pids.len() {
        text.append(&pids[i].to_be_bytes());
    }
}

/// What the two kinds of devices are, and how many there are of what an image has values of.
fn devices_text(profile: &Profile, kept: usize) -> [u8; 21]
    ensures { result ≡ devices_text profile.now kept }
{
    let root = unit_text(&profile.root, profile.root_personality_count());
    let sub = unit_text(&profile.sub, profile.sub.personalities.len() as u8);
    let subs = profile.subs.to_be_bytes();
    let kept = at_most_a_word(kept).to_be_bytes();
    [
        root[0],
        root[1],
        root[2],
        root[3],
        root[4],
        root[5],
        root[6],
        sub[0],
        sub[1],
        sub[2],
        sub[3],
        sub[4],
        sub[5],
        sub[6],
        subs[0],
        subs[1],
        profile.sensors.len() as u8,
        profile.particulars.own().len() as u8,
        profile.particulars.without().len() as u8,
        kept[0],
        kept[1],
    ]
}

/// A count, or the greatest of 16 bits.
fn at_most_a_word(count: usize) -> u16
    ensures { result ≡ min count 65535 }
{
    u16::try_from(count).unwrap_or(u16::MAX)
}

/// The model, the software version and how many personalities there are.
fn unit_text(unit: &Unit, personalities: u8) -> [u8; 7]
    ensures { result ≡ unit_text unit.now personalities }
{
    let model = unit.model.to_be_bytes();
    let software = unit.software.to_be_bytes();
    [
        model[0],
        model[1],
        software[0],
        software[1],
        software[2],
        software[3],
        personalities,
    ]
}
