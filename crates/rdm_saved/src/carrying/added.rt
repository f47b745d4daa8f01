//! The values of parameters that the maker adds.

ghost use Rattle.std.specs.Prelude.{◌≡◌, ◌≤◌, ◌+◌, ◌*◌, ◌==◌, ◌&&◌, not, nat_le, map, bytes_eq, length, take, drop, find, slice_index, false, if◌then◌else◌};
ghost use Rattle.std.specs.Option.{option_map_or};
ghost use Rattle.rdm_added.specs.Added.{is_pid_of};
ghost use Rattle.rdm_added.specs.Map.{entry};
ghost use Rattle.rdm_added.specs.Scenes.{read_only};
ghost use Rattle.rdm_added.specs.Views.State.{added_entries, kept_entry};
ghost use Rattle.rdm_profile.specs.Forms.{value_of};
ghost use Rattle.rdm_profile.specs.OwnParameters.{form_of, is_within};
ghost use Rattle.rdm_profile.specs.Values.{word_slots};
ghost use Rattle.rdm_saved.specs.Carrying.{can_keep, carried_kept, is_beside, is_kept_of, is_scene_of, kept_in, kept_or, kept_value, knows, root_place, kept_place, said_kept, said_len};

use crate::restoring::kept_in as said_in;
use crate::said::{kept_place, knows, said_kept};
use crate::saving::KEPT_BYTES;
use rdm_device::columns::added;
use rdm_device::{Kept, ParameterDef, Profile, Shape};
use rdm_frame::Text;

/// Carries over the values of parameters that the maker adds.
pub(super) fn carry_added(profile: &Profile, values: &mut [Kept], image: &[u8])
    requires { length image.now ≡ said_len image.now }
    ensures { added_entries values.new ≡ map (λ e. entry e.pid e.index (carried_kept profile.now image.now e)) (added_entries values.old) }
{
    for i in 0..values.len() {
        carry_kept(profile, &mut values[i], image);
    }
}

/// Carries over one.
fn carry_kept(profile: &Profile, kept: &mut Kept, image: &[u8])
    requires { length image.now ≡ said_len image.now }
    ensures { kept_entry kept.new ≡ entry (kept_entry kept.old).pid (kept_entry kept.old).index (carried_kept profile.now image.now (kept_entry kept.old)) }
{
    let Some(def) = added::parameter_of(profile.particulars.own(), kept.pid) else {
        return;
    };
    if !knows(image, def) {
        return;
    }
    let Some(said) = kept_value(image, kept.pid, kept.index) else {
        return;
    };
    if can_keep(def, kept.index, said.as_slice()) {
        kept.bytes = said;
    }
}

/// What an image has of the value with this key, if it has it.
fn kept_value(image: &[u8], pid: u16, index: u16) -> Option<Text>
    requires { length image.now ≡ said_len image.now }
    ensures { result ≡ kept_value image.now pid index }
{
    kept_in(said_kept(image), &image[kept_place(image)..], pid, index)
}

/// The value with this key among the first that are kept, of which there are so many.
#[tactic(auto, using(crate::proofs::Pieces::kept_here, std::proofs::lemmas::Grind::common_steps))]
fn kept_in(count: usize, bytes: &[u8], pid: u16, index: u16) -> Option<Text>
    requires { 37 * count ≤ length bytes.now }
    ensures { result ≡ kept_in count bytes.now pid index }
{
    for i in 0..count {
        let value = &bytes[KEPT_BYTES * i..KEPT_BYTES * i + KEPT_BYTES];
        if is_kept_of(pid, index, value) {
            return Some(said_in(value));
        }
    }
    None
}

/// Whether these bytes are of the value with this key.
fn is_kept_of(pid: u16, index: u16, value: &[u8]) -> bool
    requires { length value.now ≡ 37 }
    ensures { result ≡ is_kept_of pid index value.now }
{
    let pid = pid.to_be_bytes();
    let index = index.to_be_bytes();
    value[..4] == [pid[0], pid[1], index[0], index[1]][..]
}

/// Whether these bytes can be kept of a parameter.
fn can_keep(def: &ParameterDef, index: u16, bytes: &[u8]) -> bool
    ensures { result ≡ can_keep def.now index bytes.now }
{
    if index != 0 {
        return is_beside(def.shape, def, index, bytes);
    }
    match added::read_shape(def.shape, bytes) {
        Some(value) => added::is_within(def, &value),
        None => false,
    }
}

/// Whether they can be kept beside its data.
fn is_beside(shape: Shape, def: &ParameterDef, index: u16, bytes: &[u8]) -> bool
    ensures { result ≡ is_beside shape def.now index bytes.now }
{
    match shape {
        Shape::Scenes => is_scene_of(def, index, bytes),
        _ => bytes.len() == 1,
    }
}

/// Whether they can be kept of a scene.
fn is_scene_of(def: &ParameterDef, index: u16, bytes: &[u8]) -> bool
    ensures { result ≡ is_scene_of def.now index bytes.now }
{
    bytes.len() == 7 && is_programmed_as(index <= read_only(def), bytes[6])
}

/// Whether a scene that can or can't only be read can be programmed like this.
fn is_programmed_as(is_read_only: bool, programmed: u8) -> bool
    ensures { result ≡ (nat_le programmed 2 && (if is_read_only then programmed == 2 else not (programmed == 2))) }
{
    if is_read_only {
        programmed == 2
    } else {
        programmed < 2
    }
}

/// How many of the first scenes can only be read.
fn read_only(def: &ParameterDef) -> u16
    ensures { result ≡ read_only def.now }
{
    (def.low.cast_unsigned() % 256) as u16
}
