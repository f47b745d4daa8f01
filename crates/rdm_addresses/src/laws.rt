//! Laws of proposals. Each is the contract of a call that does nothing.

ghost use Rattle.std.specs.Prelude.{◌≡◌, ◌≤◌, ◌++◌, ◌∷◌, [], ℕ, List, map, option_map, slice_get, take};
ghost use Rattle.std.specs.List.{AllByRecursion};
ghost use Rattle.rdm_survey.specs.Places.{clashes_of, devices, places};
ghost use Rattle.rdm_survey.specs.declared.row.Row.{Row};
ghost use Rattle.rdm_addresses.specs.Proposals.{assigned, assignments, behind, device_in, Fits, last_slot, place_after, place_before, proposal};
ghost use Rattle.rdm_survey.specs.declared.device.Device.{Device};

/// Slots that are proposed don't clash: no two devices have one in common, and none goes past 512.
#[tactic(auto, using(crate::proofs::Separate::no_clashes))]
pub fn proposed_slots_do_not_clash()
    ensures { (from gap : ℕ) → (rows : List Row) → Fits from gap (devices rows) →
        clashes_of (map place_after (proposal from gap rows)) ≡ [] }
{}

/// No device gets an address below the first one.
#[tactic(auto, using(crate::proofs::Separate::none_below))]
pub fn proposed_slots_begin_at_the_first_address()
    ensures { (from gap : ℕ) → (rows : List Row) → AllByRecursion (λ a. from ≤ a.address) (proposal from gap rows) }
{}

/// Each device that takes part is there once, in order, and nothing else is.
#[tactic(auto, using(crate::proofs::Separate::same_devices))]
pub fn each_device_is_there_once()
    ensures { (from gap : ℕ) → (rows : List Row) → map device_in (proposal from gap rows) ≡ devices rows }
{}

/// Those that take part are those that take slots in a survey.
#[tactic(auto, using(crate::proofs::Separate::same_places))]
pub fn devices_are_those_that_take_slots()
    ensures { (rows : List Row) → map place_before (devices rows) ≡ places rows }
{}

/// The address of each device is the first one, and with it the sum of the slots and gaps of the devices before it.
#[tactic(auto, using(crate::proofs::Separate::each_behind))]
pub fn an_address_is_behind_those_before()
    ensures { (from gap : ℕ) → (list : List Device) → (i : ℕ) →
        slice_get (assignments from gap list) i ≡ option_map (λ d. assigned d (behind from gap (take i list))) (slice_get list i) }
{}

/// The last slot that devices need is that of the last device.
#[tactic(auto, using(crate::proofs::Separate::last_of_last))]
pub fn the_last_slot_is_that_of_the_last_device()
    ensures { (from gap : ℕ) → (list : List Device) → (d : Device) →
        last_slot from gap (list ++ d ∷ []) ≡ (place_after (assigned d (behind from gap list))).last }
{}
