//! The fixture of the demonstration: its jobs end by rules, and its panel offers four changes.

ghost use Rattle.std.specs.Prelude.{◌≡◌};
ghost use Rattle.rdm_profile.specs.Demo.{demo};
ghost use Rattle.rdm_outcomes.specs.Demo as says;
ghost use Rattle.rdm_script.specs.Parties.{demo_device};
ghost use Rattle.rdm_script.specs.Rules.{rules_of};

use crate::dialect::Spelling;
use crate::parties::DEMO_DEVICE;
use crate::rules::RuledPart;
use crate::stage::Stage;
use rdm_crew::Panel;
use rdm_frame::standard::MOST_SUB_DEVICES;
use rdm_outcomes::demo_rules;
use rdm_params::{Change, Plate, Profile};

/// The moving head of the demonstration, for scripts whose words are spelled so.
pub(crate) fn demo_stage(spelling: Spelling) -> Stage<RuledPart, RuledPart, DemoPanel>
    ensures device { result.device ≡ demo_device }
    ensures spelling { result.spelling ≡ spelling }
    ensures profile { result.profile ≡ demo 512 }
    ensures first { rules_of result.first ≡ says.demo_rules }
    ensures second { rules_of result.second ≡ says.demo_rules }
{
    let rules = demo_rules();
    Stage {
        device: DEMO_DEVICE,
        profile: Profile::demo(MOST_SUB_DEVICES),
        spelling,
        first: RuledPart::new(&rules),
        second: RuledPart::new(&rules),
        panel: DemoPanel,
    }
}

/// What a person changes at the fixture's own menu: a label, a start address, a personality that the moving head hasn't got,
/// and one that it has.
#[derive(Debug, Drop)]
pub struct DemoPanel;

impl Panel for DemoPanel {
    ghost use Rattle.std.specs.Prelude.{◌≡◌, Some};
    ghost use Rattle.rdm_script.specs.DemoParts.{panel_change};

    ghost offers = { λ panel number change. panel_change number ≡ Some change };

    fn next(&mut self, number: u32) -> Option<Change> {
        match number {
            0 => Some(Change::Label(Plate::new(b"Panel")?)),
            1 => Some(Change::Start(101)),
            2 => Some(Change::Personality(9)),
            3 => Some(Change::Personality(2)),
            _ => None,
        }
    }
}
