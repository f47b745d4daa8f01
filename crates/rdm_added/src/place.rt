//! One addressed device.

ghost use Rattle.std.specs.Prelude.{◌≡◌, ◌++◌, [], true, false};
ghost use Rattle.rdm_added.specs.Views.State.{common_entries, own_entries, added_entries};

use crate::state::{CommonValues, RootValues};
use rdm_profile::{Profile, Unit};
use std::marker::Model;

/// What the ranges and replies of one device depend on. A contract sees the device.
#[derive(Drop)]
pub struct Place<'a> {
    /// What the devices are made with.
    pub profile: &'a Profile,
    /// What the profile says of the device.
    pub unit: &'a Unit,
    /// The values that every device keeps.
    pub common: &'a CommonValues,
    /// The values of the root; none at a sub-device.
    pub own: Option<&'a RootValues>,
}

impl<'a> Model for Place<'a> {
    ghost use Rattle.std.specs.Prelude.{is_some, ◌++◌};
    ghost use Rattle.std.specs.Option.{option_copied};
    ghost use Rattle.rdm_added.specs.Spot.{Spot};
    ghost use Rattle.rdm_added.specs.Views.State.{common_entries, own_if, added_if};

    ghost Value = { Spot };

    ghost view = { λ p. record { profile = p.profile.now; unit = p.unit.now; is_root = is_some p.own; entries = common_entries p.common.now ++ own_if (option_copied p.own); added = added_if (option_copied p.own) } };
}

impl<'a> Place<'a> {
    /// The root, with the values that every device keeps and its own.
    #[inline(always)]
    #[tactic(auto, unfolding(crate::specs::Views::State::common_entries))]
    pub fn of_root(profile: &'a Profile, common: &'a CommonValues, own: &'a RootValues) -> Self
        ensures { result ≡ record { profile = profile.now; unit = profile.now.root; is_root = true; entries = common_entries common.now ++ own_entries own.now; added = added_entries own.now.added.items } }
    {
        Place {
            profile,
            unit: &profile.root,
            common,
            own: Some(own),
        }
    }

    /// A sub-device with these values.
    #[inline(always)]
    #[tactic(auto, unfolding(crate::specs::Views::State::common_entries))]
    pub fn of_sub(profile: &'a Profile, common: &'a CommonValues) -> Self
        ensures { result ≡ record { profile = profile.now; unit = profile.now.sub; is_root = false; entries = common_entries common.now; added = [] } }
    {
        Place {
            profile,
            unit: &profile.sub,
            common,
            own: None,
        }
    }
}
