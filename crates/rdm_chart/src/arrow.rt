//! Arrows between lifelines.

ghost use Rattle.std.specs.Prelude.{◌≡◌, ◌++◌, ◌∷◌, [], OnOk};
ghost use Rattle.rdm_chart.specs.Arrows.{kind_told};
ghost use Rattle.rdm_chart.specs.Reading.{kind_named};
ghost use Rattle.rdm_chart.specs.Elements.{IsName};
ghost use Rattle.rdm_chart.specs.Drawings.{kind_of_passage, kinds_of_shafts};

use crate::layout::{ABOVE_ARROW, ABOVE_CROSS, CONTROLLER_X, PADDING, Px, RESPONDER_X, TIP_LENGTH};
use crate::style::Class;
use crate::svg::Svg;
use std::alloc::AllocError;

/// What becomes of a message on its way.
#[derive(Clone, Copy, PartialEq, Eq)]
pub(crate) enum Passage {
    /// It arrives as it was sent.
    Whole,
    /// It arrives with a slot altered.
    Altered,
    /// It doesn't arrive.
    Lost,
    /// It arrives, and nothing is done.
    Refused,
    /// It arrives as it was sent, and says that something wasn't done: a NACK, or the report of a job that failed.
    Negative,
}

impl Passage {
    /// That of a message that arrives as it was sent, by whether it says that something wasn't done.
    pub(crate) fn told(negative: bool) -> Passage
        ensures { kind_of_passage result ≡ kind_told negative }
    {
        if negative {
            Passage::Negative
        } else {
            Passage::Whole
        }
    }
}

/// How an arrow looks.
#[derive(Clone, Copy)]
pub(crate) enum Kind {
    /// The message arrives as it was sent.
    Whole,
    /// It arrives with a slot altered.
    Altered,
    /// It doesn't arrive, or nothing is done.
    Lost,
    /// It arrives, and says that something wasn't done.
    Negative,
}

impl Kind {
    /// The class of its shaft in the style sheet.
    pub(crate) fn name(self) -> &'static str
        ensures kind { kind_named result.now ≡ self ∷ [] }
        ensures letters { IsName result.now }
    {
        match self {
            Kind::Whole => "arrow",
            Kind::Altered => "arrow altered",
            Kind::Lost => "arrow lost",
            Kind::Negative => "arrow negative",
        }
    }
}

/// The shaft of an arrow, which goes from left to right or back.
#[derive(Clone, Copy)]
pub(crate) struct Shaft {
    pub(crate) kind: Kind,
    pub(crate) from: Px,
    pub(crate) to: Px,
    pub(crate) y: Px,
}

/// A message on its way from one lifeline to another.
#[derive(Clone, Copy)]
pub(crate) struct Arrow {
    pub(crate) from: Px,
    pub(crate) to: Px,
    pub(crate) passage: Passage,
}

impl Arrow {
    /// The lifeline on the left of the two.
    pub(crate) fn left(&self) -> Px {
        self.from.min(self.to)
    }

    /// The room between the words of the arrow and itself.
    pub(crate) fn room_above(&self) -> Px {
        match self.passage {
            Passage::Whole | Passage::Altered | Passage::Negative => ABOVE_ARROW,
            Passage::Lost | Passage::Refused => ABOVE_CROSS,
        }
    }

    /// Draws the arrow at this height: its shaft, and what stands at its end.
    pub(crate) fn draw(
        &self,
        shafts: &mut Vec<Shaft>,
        ends: &mut Svg,
        y: Px,
    ) -> Result<(), AllocError>
        ensures { OnOk result (kinds_of_shafts shafts.new.items
            ≡ kinds_of_shafts shafts.old.items ++ kind_of_passage self.now.passage ∷ []) }
    {
        let end = self.shaft_end();
        shafts.push(Shaft {
            kind: self.kind(),
            from: self.from,
            to: end,
            y,
        })?;
        match self.passage {
            Passage::Whole => ends.tip(Class::Tip, self.to, y, self.goes_right()),
            Passage::Altered => ends.tip(Class::AlteredTip, self.to, y, self.goes_right()),
            Passage::Negative => ends.tip(Class::NegativeTip, self.to, y, self.goes_right()),
            Passage::Lost | Passage::Refused => ends.cross(end, y),
        }
    }

    /// Where its time stands, and how: outside the lifelines between which its words are, or else before the responder.
    pub(crate) fn time_place(&self) -> (Class, Px) {
        if self.from == CONTROLLER_X {
            (Class::NoteBefore, CONTROLLER_X - PADDING)
        } else if self.to == CONTROLLER_X {
            (Class::Note, RESPONDER_X + PADDING)
        } else {
            (Class::NoteBefore, RESPONDER_X - PADDING)
        }
    }

    /// How the shaft looks.
    fn kind(&self) -> Kind
        ensures { result ≡ kind_of_passage self.now.passage }
    {
        match self.passage {
            Passage::Whole => Kind::Whole,
            Passage::Altered => Kind::Altered,
            Passage::Lost | Passage::Refused => Kind::Lost,
            Passage::Negative => Kind::Negative,
        }
    }

    /// Where the shaft ends.
    fn shaft_end(&self) -> Px {
        match self.passage {
            // within the tip
            Passage::Whole | Passage::Altered | Passage::Negative => self.before_end(TIP_LENGTH),
            // after three fifths of the way
            Passage::Lost => self.before_end(self.from.abs_diff(self.to) / 5 * 2),
            Passage::Refused => self.before_end(PADDING),
        }
    }

    fn goes_right(&self) -> bool {
        self.from < self.to
    }

    /// What lies so far before the end of the way.
    fn before_end(&self, left: Px) -> Px {
        if self.goes_right() {
            self.to.saturating_sub(left)
        } else {
            self.to.saturating_add(left)
        }
    }
}
