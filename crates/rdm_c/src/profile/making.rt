//! Profiles made of numbers. A profile is large, and so is a list of parameters, so each function here that has one of them on the stack
//! returns before that with the other is called, and what it calls takes little.

ghost use Rattle.std.specs.Prelude.{◌≡◌, ◌↔◌, ◌<◌, ◌≤◌, List, None, IfOk, IfSome, IsTrue, length, map};
ghost use Rattle.rdm_profile.specs.Demo.{demo};
ghost use Rattle.rdm_profile_rules.specs.declared.faults.ProfileFault.TheVariants.{ParameterNames, ParameterLocks};
ghost use Rattle.rdm_profile_rules.specs.Faults.{IsFirstBroken, KeepsBefore, KeepsBinding, KeepsLeftOut};
ghost use Rattle.rdm_profile.specs.Modes.{shape_of};
ghost use Rattle.rdm_profile.specs.Particulars.{usual_particular};
ghost use Rattle.rdm_profile.specs.Profiles.{Agree, AreGoodLocks, AreGoodModes, AreGoodParameters, CanBeMade};
ghost use Rattle.rdm_profile.specs.declared.profile.choices.ChoiceName.{ChoiceName};
ghost use Rattle.rdm_c.specs.Modes.{mode_in, HaveFewSlots};
ghost use Rattle.rdm_c.specs.Parameters.{choice_in, lock_in, parameter_in, HasOwn};
ghost use Rattle.rdm_c.specs.Profiles.{particular_in, profile_in};

use crate::profile::modes::{ModeNumbers, modes_of, shapes_of};
use crate::profile::parameters::{ChoiceNumbers, LockNumbers, ParameterNumbers};
use crate::profile::{ProfileNumbers, SlotNumbers, lists};
use arrayvec::ArrayVec;
use rdm_device::{
    ProfileFault, agree, can_hold, can_open, have_states, mode_fault, mute_fault, own_fault,
    profile_fault, profile_fault_with,
};
use rdm_frame::Text;
use rdm_params::{
    ChoiceName, Lock, OwnParameters, ParameterDef, Particular, Particulars, Profile, Unit,
};
use std::alloc::{AllocError, Global};

/// How many parameters of the maker's own there can be.
const MOST_OWN: usize = 32;

/// How many names of choices there can be.
const MOST_CHOICES: usize = 64;

/// How many modes there can be.
const MOST_MODES: usize = 247;

/// The profile of these numbers on the heap, if there is memory for it.
#[inline(never)]
pub(crate) fn boxed(
    alloc: Global,
    numbers: &ProfileNumbers,
    parameters: &[ParameterNumbers],
    without: &[u16],
    choices: &[ChoiceNumbers],
    modes: &[ModeNumbers],
    slots: &[SlotNumbers],
) -> Option<Box<Profile>>
    requires own { length parameters.now ≤ 32 }
    requires without { length without.now ≤ 36 }
    requires choices { length choices.now ≤ 64 }
    requires modes { length modes.now ≤ 247 }
    requires slots { HaveFewSlots slots.now modes.now }
    ensures { IfSome result (λ boxed. boxed.value ≡ profile_in numbers.now parameters.now without.now choices.now modes.now slots.now) }
{
    let Ok(particulars) = particulars(alloc, numbers, parameters, without, choices, modes, slots)
    else {
        return None;
    };
    let Ok(mut boxed) = Box::new(alloc, blank()) else {
        return None;
    };
    numbers.write(&mut boxed);
    boxed.particulars = particulars;
    Some(boxed)
}

/// What sets the profile of these numbers apart.
#[inline(never)]
fn particulars(
    alloc: Global,
    numbers: &ProfileNumbers,
    parameters: &[ParameterNumbers],
    without: &[u16],
    choices: &[ChoiceNumbers],
    modes: &[ModeNumbers],
    slots: &[SlotNumbers],
) -> Result<Particulars, AllocError>
    requires own { length parameters.now ≤ 32 }
    requires without { length without.now ≤ 36 }
    requires choices { length choices.now ≤ 64 }
    requires modes { length modes.now ≤ 247 }
    requires slots { HaveFewSlots slots.now modes.now }
    ensures { IfOk result (λ made. made ≡ particular_in numbers.now parameters.now without.now choices.now modes.now slots.now) }
{
    let mut particular = Particular::usual();
    particular.own = OwnParameters::with_room(alloc, parameters.len())?;
    lists::keep(alloc, parameters, &mut particular.own)?;
    lists::keep(alloc, choices, &mut particular.choices)?;
    lists::keep(alloc, numbers.lock_entries(), &mut particular.locks)?;
    lists::copy(without, &mut particular.without);
    particular.more_slots = numbers.more_slots;
    particular.estimates = numbers.estimates.estimates();
    particular.mute_reply = numbers.mute_reply();
    particular.newest_only = numbers.newest_only != 0;
    particular.modes = modes_of(alloc, modes, slots)?;
    Particulars::of(alloc, particular)
}

/// The demonstration fixture's profile on the heap, if there is memory for it.
#[inline(never)]
pub(crate) fn boxed_demo(alloc: Global, subs: u16) -> Option<Box<Profile>>
    ensures { IfSome result (λ boxed. boxed.value ≡ demo subs) }
{
    let Ok(boxed) = Box::new(alloc, Profile::demo(subs)) else {
        return None;
    };
    Some(boxed)
}

/// The first rule that the profile of these numbers breaks, or `None` if it breaks none: a responder can be made with it then. It
/// takes no memory.
#[inline(never)]
pub(crate) fn fault_of(
    numbers: &ProfileNumbers,
    parameters: &[ParameterNumbers],
    without: &[u16],
    choices: &[ChoiceNumbers],
    modes: &[ModeNumbers],
    slots: &[SlotNumbers],
) -> Option<ProfileFault>
    ensures good { (result ≡ None) ↔ CanBeMade (profile_in numbers.now parameters.now without.now choices.now modes.now slots.now) }
    ensures first { IfSome result (λ fault. IsFirstBroken fault
        (profile_in numbers.now parameters.now without.now choices.now modes.now slots.now)) }
    ensures own { result ≡ None → length parameters.now ≤ 32 }
    ensures without { result ≡ None → length without.now ≤ 36 }
    ensures choices { result ≡ None → length choices.now ≤ 64 }
    ensures modes { result ≡ None → length modes.now ≤ 247 }
    ensures slots { result ≡ None → HaveFewSlots slots.now modes.now }
{
    match fault_but_modes(numbers, parameters, without, choices) {
        Some(fault) => Some(fault),
        None => fault_of_modes(numbers.root.personality_total(), modes, slots),
    }
}

/// The first rule that the profile breaks, of those that don't speak of modes.
fn fault_but_modes(
    numbers: &ProfileNumbers,
    parameters: &[ParameterNumbers],
    without: &[u16],
    choices: &[ChoiceNumbers],
) -> Option<ProfileFault>
    ensures first { (modes : List ModeNumbers) (slots : List SlotNumbers) → IfSome result (λ fault. IsFirstBroken fault
        (profile_in numbers.now parameters.now without.now choices.now modes slots)) }
    ensures none { (modes : List ModeNumbers) (slots : List SlotNumbers) → result ≡ None →
        KeepsBinding (profile_in numbers.now parameters.now without.now choices.now modes slots) }
{
    match fault_but_own(numbers, without) {
        Some(fault) => Some(fault),
        None => match fault_of_own(parameters, choices, numbers.lock_entries(), without) {
            Some(fault) => Some(fault),
            None => mute_fault(&numbers.mute_reply()),
        },
    }
}

/// The first rule of modes that these break, behind so many personalities of the root's unit.
#[inline(never)]
fn fault_of_modes(
    units: usize,
    modes: &[ModeNumbers],
    slots: &[SlotNumbers],
) -> Option<ProfileFault>
    ensures good { (result ≡ None) ↔ AreGoodModes units (map shape_of (map (mode_in slots.now) modes.now)) }
    ensures first { (p : Profile) → length p.root.personalities.items ≡ units → p.particulars.modes ≡ map (mode_in slots.now) modes.now
        → KeepsBinding p → IfSome result (λ fault. IsFirstBroken fault p) }
{
    if modes.len() > MOST_MODES {
        return Some(ProfileFault::ModeCount);
    }
    let shapes = shapes_of(modes, slots);
    mode_fault(units, shapes.as_slice())
}

/// The first rule that the profile breaks, of those that don't speak of parameters of the maker's own.
#[inline(never)]
fn fault_but_own(numbers: &ProfileNumbers, without: &[u16]) -> Option<ProfileFault>
    ensures first { (parameters : List ParameterNumbers) (choices : List ChoiceNumbers) (modes : List ModeNumbers) (slots : List SlotNumbers) →
        IfSome result (λ fault. IsFirstBroken fault (profile_in numbers.now parameters without.now choices modes slots)) }
    ensures none { (parameters : List ParameterNumbers) (choices : List ChoiceNumbers) (modes : List ModeNumbers) (slots : List SlotNumbers) →
        result ≡ None → KeepsLeftOut (profile_in numbers.now parameters without.now choices modes slots) }
{
    let mut others = blank();
    numbers.write(&mut others);
    profile_fault_with(&others, numbers.more_slots, without, &[], &[])
}

/// The first rule of parameters of the maker's own that these break, with their names and locks.
fn fault_of_own(
    parameters: &[ParameterNumbers],
    choices: &[ChoiceNumbers],
    locks: &[LockNumbers],
    without: &[u16],
) -> Option<ProfileFault>
    requires { length locks.now ≤ 64 }
    ensures good { (result ≡ None) ↔ (AreGoodParameters (map parameter_in parameters.now) (map choice_in choices.now)
        × AreGoodLocks without.now (map parameter_in parameters.now) (map lock_in locks.now)) }
    ensures first { (p : Profile) → HasOwn p (map parameter_in parameters.now) (map choice_in choices.now) (map lock_in locks.now) without.now
        → KeepsLeftOut p → IfSome result (λ fault. IsFirstBroken fault p) }
{
    if parameters.len() > MOST_OWN {
        return Some(ProfileFault::ParameterCount);
    }
    fault_of_few(parameters, choices, locks, without)
}

/// The same of no more than there can be.
#[inline(never)]
fn fault_of_few(
    parameters: &[ParameterNumbers],
    choices: &[ChoiceNumbers],
    locks: &[LockNumbers],
    without: &[u16],
) -> Option<ProfileFault>
    requires own { length parameters.now ≤ 32 }
    requires locks { length locks.now ≤ 64 }
    ensures good { (result ≡ None) ↔ (AreGoodParameters (map parameter_in parameters.now) (map choice_in choices.now)
        × AreGoodLocks without.now (map parameter_in parameters.now) (map lock_in locks.now)) }
    ensures first { (p : Profile) → HasOwn p (map parameter_in parameters.now) (map choice_in choices.now) (map lock_in locks.now) without.now
        → KeepsLeftOut p → IfSome result (λ fault. IsFirstBroken fault p) }
{
    let mut own: ArrayVec<ParameterDef, 32> = ArrayVec::new();
    lists::fill(parameters, &mut own);
    match own_fault(own.as_slice()) {
        Some(fault) => Some(fault),
        None => fault_beside(own.as_slice(), choices, locks, without),
    }
}

/// The first rule that is broken by the names and the locks that go with these parameters.
fn fault_beside(
    own: &[ParameterDef],
    choices: &[ChoiceNumbers],
    locks: &[LockNumbers],
    without: &[u16],
) -> Option<ProfileFault>
    requires { length locks.now ≤ 64 }
    ensures good { (result ≡ None) ↔ (Agree own.now (map choice_in choices.now) × AreGoodLocks without.now own.now (map lock_in locks.now)) }
    ensures first { (p : Profile) → HasOwn p own.now (map choice_in choices.now) (map lock_in locks.now) without.now
        → KeepsBefore ParameterNames p → IfSome result (λ fault. IsFirstBroken fault p) }
{
    if !have_names(own, choices) {
        return Some(ProfileFault::ParameterNames);
    }
    fault_of_locks(own, locks, without)
}

/// Whether each thing that can be chosen has its name, and each name its thing.
fn have_names(own: &[ParameterDef], choices: &[ChoiceNumbers]) -> bool
    ensures { IsTrue result ↔ Agree own.now (map choice_in choices.now) }
{
    choices.len() <= MOST_CHOICES && have_few_names(own, choices)
}

/// The same of no more names than there can be.
#[inline(never)]
fn have_few_names(own: &[ParameterDef], choices: &[ChoiceNumbers]) -> bool
    requires { length choices.now ≤ 64 }
    ensures { IsTrue result ↔ Agree own.now (map choice_in choices.now) }
{
    let mut names: ArrayVec<ChoiceName, 64> = ArrayVec::new();
    lists::fill(choices, &mut names);
    agree(own, names.as_slice())
}

/// The first rule of locks that is broken by these.
#[inline(never)]
fn fault_of_locks(
    own: &[ParameterDef],
    locks: &[LockNumbers],
    without: &[u16],
) -> Option<ProfileFault>
    requires { length locks.now ≤ 64 }
    ensures good { (result ≡ None) ↔ AreGoodLocks without.now own.now (map lock_in locks.now) }
    ensures first { (p : Profile) (choices : List ChoiceName) → HasOwn p own.now choices (map lock_in locks.now) without.now
        → KeepsBefore ParameterLocks p → IfSome result (λ fault. IsFirstBroken fault p) }
{
    let mut list: ArrayVec<Lock, 64> = ArrayVec::new();
    lists::fill(locks, &mut list);
    if !have_states(own, list.as_slice()) {
        return Some(ProfileFault::ParameterLocks);
    }
    if !can_open(own) {
        return Some(ProfileFault::ParameterLockState);
    }
    if !can_hold(without, own, list.as_slice()) {
        return Some(ProfileFault::ParameterLocked);
    }
    None
}

/// The first rule that the demonstration fixture's profile breaks, as `fault_of`.
#[inline(never)]
pub(crate) fn fault_of_demo(subs: u16) -> Option<ProfileFault>
    ensures { (result ≡ None) ↔ CanBeMade (demo subs) }
{
    profile_fault(&Profile::demo(subs))
}

/// A profile in which nothing is said yet.
#[inline(always)]
fn blank() -> Profile
    ensures { result.particulars ≡ usual_particular }
{
    Profile::of(blank_unit(), blank_unit(), 0)
}

/// A unit in which nothing is said yet.
#[inline(always)]
fn blank_unit() -> Unit {
    Unit {
        model: 0,
        category: 0,
        software: 0,
        model_text: Text::new(),
        maker_text: Text::new(),
        label: Text::new(),
        software_text: Text::new(),
        personalities: ArrayVec::new(),
        start: 0,
    }
}
