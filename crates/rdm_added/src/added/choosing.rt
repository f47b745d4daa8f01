//! What the choices reply, and the parameters that tell what the things are called of which one is chosen (E1.37-1).

ghost use Rattle.std.specs.Prelude.{◌≡◌, ◌++◌, ◌≤◌, [], find, length};
ghost use Rattle.std.specs.List.{list_any};
ghost use Rattle.std.specs.Option.{option_copied};
ghost use Rattle.rdm_added.specs.Added.{choice_shown, a_name, name_slots, name_shown};
ghost use Rattle.rdm_profile.specs.Forms.{byte};
ghost use Rattle.rdm_profile.specs.Choices.{greatest, has_name, is_name_of};

use crate::added::write_added;
use crate::place::Place;
use rdm_frame::Body;
use rdm_profile::{Argument, ChoiceName, ParameterDef, Shape};

/// Writes the number that is chosen, and the greatest that can be, into an empty list.
pub fn choice_shown(place: &Place<'_>, def: &ParameterDef, body: &mut Body)
    requires { body.old ≡ [] }
    ensures { body.new ≡ choice_shown def.now place.now }
{
    write_added(place, def.pid, body);
    body.append(&[greatest(def)]);
}

/// The greatest number that can be chosen.
pub fn greatest(def: &ParameterDef) -> u8
    ensures { result ≡ greatest def.now }
{
    (def.high.cast_unsigned() % 256) as u8
}

/// The number of a thing that has a name.
pub fn a_name(place: &Place<'_>, def: &ParameterDef, value: &Argument<'_>) -> bool
    ensures { result ≡ a_name def.now byte place.now value.now }
{
    match value.byte() {
        Some(number) => has_name(place.profile.particulars.choices(), def.pid as u32, number),
        None => false,
    }
}

/// Whether the thing of this number has a name that the parameter with this PID tells.
pub fn has_name(choices: &[ChoiceName], pid: u32, number: u8) -> bool
    ensures { result ≡ has_name choices.now pid number }
{
    choices.iter().any(|name| is_name_of(name, pid, number))
}

fn is_name_of(name: &ChoiceName, pid: u32, number: u8) -> bool
    ensures { result ≡ is_name_of pid number name.now }
{
    name.pid as u32 == pid && name.number == number
}

/// Writes the number of a thing and its name into an empty list.
pub fn name_shown(place: &Place<'_>, def: &ParameterDef, value: &Argument<'_>, body: &mut Body)
    requires { body.old ≡ [] }
    ensures { body.new ≡ name_shown def.now place.now value.now }
{
    let number = value.byte().unwrap_or(0);
    body.append(&[number]);
    if let Some(name) = named(place.profile.particulars.choices(), def.pid, number) {
        write_name(def.shape, name, body);
    }
}

/// The name of the thing with this number, which the parameter with this PID tells.
fn named(choices: &[ChoiceName], pid: u16, number: u8) -> Option<&ChoiceName>
    ensures { option_copied result ≡ find (is_name_of pid number) choices.now }
{
    choices
        .iter()
        .find(|name| name.pid == pid && name.number == number)
}

/// Writes the frequency of a thing, if it is told, and its name, behind what a list has.
fn write_name(shape: Shape, name: &ChoiceName, body: &mut Body)
    requires { length body.old ≤ 1 }
    ensures { body.new ≡ body.old ++ name_slots shape name.now }
{
    if let Shape::Rates = shape {
        body.append(&name.hertz.to_be_bytes());
    }
    body.append(name.name.as_slice());
}
