//! The looks that things have, as classes of the style sheet.

ghost use Rattle.std.specs.Prelude.{◌≡◌, []};
ghost use Rattle.rdm_chart.specs.Reading.{kind_named};
ghost use Rattle.rdm_chart.specs.Elements.{IsName};

use crate::lettering::Weight;

/// How an element looks that isn't an arrow.
#[derive(Clone, Copy)]
pub(crate) enum Class {
    /// The page itself.
    Page,
    /// The text above the chart, and what is said of it below.
    Title,
    Subtitle,
    /// The text above the recorded messages.
    Section,
    /// The head of the responder.
    Device,
    /// The head of any other party.
    Party,
    /// The name in a head.
    Name,
    /// A lifeline.
    Life,
    /// The line above a transaction.
    Rule,
    /// The number of a transaction, or of a recorded message.
    Count,
    /// The words of a request.
    Request,
    /// The words of a NACK, or of the report of a job that failed.
    NegativeWords,
    /// Any other words.
    Words,
    /// A remark, and one that ends where it is put.
    Note,
    NoteBefore,
    /// The tip of an arrow.
    Tip,
    /// The tip of the arrow of what is altered on the way.
    AlteredTip,
    /// The tip of the arrow of what says that something wasn't done.
    NegativeTip,
    /// The cross at the end of the arrow of what is lost on the way.
    Cross,
    /// The tag of a recorded message, and the words in it.
    Tag,
    TagName,
}

impl Class {
    /// Its name in the style sheet.
    pub(crate) fn name(self) -> &'static str
        ensures no_arrow { kind_named result.now ≡ [] }
        ensures letters { IsName result.now }
    {
        match self {
            Class::Page => "page",
            Class::Title => "title",
            Class::Subtitle => "subtitle",
            Class::Section => "section",
            Class::Device => "device",
            Class::Party => "party",
            Class::Name => "name",
            Class::Life => "life",
            Class::Rule => "rule",
            Class::Count => "count",
            Class::Request => "request",
            Class::NegativeWords => "words negative-words",
            Class::Words => "words",
            Class::Note => "note",
            Class::NoteBefore => "note before",
            Class::Tip => "tip",
            Class::AlteredTip => "tip altered-tip",
            Class::NegativeTip => "tip negative-tip",
            Class::Cross => "cross",
            Class::Tag => "tag",
            Class::TagName => "tag-name",
        }
    }
}

impl Class {
    /// How heavy its letters are.
    pub(crate) fn weight(self) -> Weight {
        match self {
            Class::Request | Class::NegativeWords => Weight::Bold,
            _ => Weight::Regular,
        }
    }
}

/// The style sheet: for a light page, and then what is different on a dark one.
pub(crate) const STYLE: &str = "
text { font: 13px Helvetica, Arial, sans-serif; fill: #1e293b; }
.page { fill: #f1f5f9; stroke: #94a3b8; stroke-width: 2; }
.title { font-size: 17px; font-weight: bold; }
.subtitle { fill: #475569; }
.section { font-size: 15px; font-weight: bold; }
.device { fill: #bfdbfe; stroke: #2563eb; }
.party { fill: #fde3b8; stroke: #a16207; }
.name { font-size: 14px; font-weight: bold; text-anchor: middle; }
.life { stroke: #64748b; stroke-width: 1.5; stroke-dasharray: 4 4; }
.rule { stroke: #cbd5e1; }
.count { fill: #64748b; }
.request { font-weight: bold; }
.negative-words { font-weight: bold; fill: #6b21a8; }
.note { font-size: 12px; font-style: italic; fill: #64748b; }
.before { text-anchor: end; }
.arrow { stroke: #334155; stroke-width: 2; fill: none; }
.tip { fill: #334155; }
.altered { stroke: #b45309; stroke-dasharray: 8 5; }
.altered-tip { fill: #b45309; }
.lost { stroke: #b91c1c; }
.negative { stroke: #7e22ce; stroke-dasharray: 2 4; }
.negative-tip { fill: #f1f5f9; stroke: #7e22ce; stroke-width: 2; stroke-linejoin: round; }
.cross { stroke: #b91c1c; stroke-width: 2.5; fill: none; }
.tag { fill: #dcfce7; stroke: #15803d; }
.tag-name { font-size: 12px; text-anchor: middle; fill: #14532d; }
@media (prefers-color-scheme: dark) {
text { fill: #e2e8f0; }
.page { fill: #0f172a; stroke: #475569; }
.device { fill: #1e3a8a; stroke: #60a5fa; }
.party { fill: #713f12; stroke: #eab308; }
.life { stroke: #94a3b8; }
.rule { stroke: #334155; }
.count, .note, .subtitle { fill: #94a3b8; }
.negative-words { fill: #e9d5ff; }
.arrow { stroke: #cbd5e1; }
.tip { fill: #cbd5e1; }
.altered { stroke: #fbbf24; }
.altered-tip { fill: #fbbf24; }
.lost, .cross { stroke: #f87171; }
.negative { stroke: #d8b4fe; }
.negative-tip { fill: #0f172a; stroke: #d8b4fe; }
.tag { fill: #14532d; stroke: #4ade80; }
.tag-name { fill: #dcfce7; }
}
";
