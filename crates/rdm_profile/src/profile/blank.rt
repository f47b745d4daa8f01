//! The blanks that fill the unused places of a list: every number is 0, and every text empty.

ghost use Rattle.std.specs.Prelude.{◌≡◌, [], pos, false};
ghost use Rattle.rdm_profile.specs.declared.profile.fields.Width.TheVariants as widths;
ghost use Rattle.rdm_profile.specs.declared.profile.own.Rights.TheVariants as rights;
ghost use Rattle.rdm_profile.specs.declared.profile.own.Shape.TheVariants as shapes;

use crate::{
    ChoiceName, Field, ParameterDef, Personality, Rights, SelfTest, SensorDef, Shape, Slot,
    StatusText, Width,
};
use arrayvec::ArrayVec;
use rdm_frame::Text;

impl Default for Personality {
    ghost is_default = { λ blank. blank ≡ record { footprint = 0; name = [] } };

    fn default() -> Personality {
        Personality {
            footprint: 0,
            name: Text::new(),
        }
    }
}

impl Default for Slot {
    ghost is_default = { λ blank. blank ≡ record { kind = 0; label = 0; value = 0; name = [] } };

    fn default() -> Slot {
        Slot {
            kind: 0,
            label: 0,
            value: 0,
            name: Text::new(),
        }
    }
}

impl Default for SensorDef {
    ghost is_default = { λ blank. blank ≡ record { kind = 0; unit = 0; prefix = 0; low = pos 0; high = pos 0; normal_low = pos 0; normal_high = pos 0; support = 0; at_once = false; name = [] } };

    fn default() -> SensorDef {
        SensorDef {
            kind: 0,
            unit: 0,
            prefix: 0,
            low: 0,
            high: 0,
            normal_low: 0,
            normal_high: 0,
            support: 0,
            at_once: false,
            name: Text::new(),
        }
    }
}

impl Default for SelfTest {
    ghost is_default = { λ blank. blank ≡ record { number = 0; name = [] } };

    fn default() -> SelfTest {
        SelfTest {
            number: 0,
            name: Text::new(),
        }
    }
}

impl Default for StatusText {
    ghost is_default = { λ blank. blank ≡ record { id = 0; text = [] } };

    fn default() -> StatusText {
        StatusText {
            id: 0,
            text: Text::new(),
        }
    }
}

impl Default for ChoiceName {
    ghost is_default = { λ blank. blank ≡ record { pid = 0; number = 0; hertz = 0; name = [] } };

    fn default() -> ChoiceName {
        ChoiceName {
            pid: 0,
            number: 0,
            hertz: 0,
            name: Text::new(),
        }
    }
}

impl Default for Field {
    ghost is_default = { λ blank. blank ≡ record { width = widths.One; low = 0; high = 0; also = 0 } };

    fn default() -> Field {
        Field {
            width: Width::One,
            low: 0,
            high: 0,
            also: 0,
        }
    }
}

impl Default for ParameterDef {
    ghost is_default = { λ blank. blank ≡ record { pid = 0; rights = rights.Get; shape = shapes.Byte; low = pos 0; high = pos 0; fields = record { items = [] }; start = []; unit = 0; prefix = 0; name = []; resets = false } };

    fn default() -> ParameterDef {
        ParameterDef {
            pid: 0,
            rights: Rights::Get,
            shape: Shape::Byte,
            low: 0,
            high: 0,
            fields: ArrayVec::new(),
            start: Text::new(),
            unit: 0,
            prefix: 0,
            name: Text::new(),
            resets: false,
        }
    }
}
