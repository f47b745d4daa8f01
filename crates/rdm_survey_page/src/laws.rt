//! Laws of pages. Each is the contract of a call that does nothing.

ghost use Rattle.std.specs.Prelude.{◌≡◌, ◌<◌, ℕ, List, option_map, Some};
ghost use Rattle.std.specs.List.{AllByRecursion};
ghost use Rattle.rdm_survey.specs.declared.row.Row.{Row};
ghost use Rattle.rdm_survey.specs.Shown.{shown, unshown};
ghost use Rattle.rdm_survey_page.specs.Escaping.{escaped, IsPlain, unescaped};
ghost use Rattle.rdm_survey_page.specs.Outlines.{page_tags, tags};
ghost use Rattle.rdm_survey_page.specs.Pages.{page_text};

/// A strict reader of HTML, which refuses markup and what is no reference, reads what was escaped.
#[tactic(auto, using(crate::proofs::Reading::escaped_back))]
pub fn escaped_text_is_read_back()
    ensures { (text : List ℕ) → unescaped (escaped text) ≡ Some text }
{}

/// What was escaped begins and ends no tag.
#[tactic(auto, using(crate::proofs::Reading::escaped_plain))]
pub fn escaped_text_is_no_markup()
    ensures { (text : List ℕ) → AllByRecursion IsPlain (escaped text) }
{}

/// No byte of a text of a fixture is lost on a page.
#[tactic(auto, using(crate::proofs::Reading::shown_back))]
pub fn text_on_a_page_is_read_back()
    ensures { (text : List ℕ) → AllByRecursion (λ byte. byte < 256) text →
        option_map unshown (unescaped (escaped (shown text))) ≡ Some text }
{}

/// Whatever the title and the fixtures say, the tags of a page are those of its table and of its list.
#[tactic(auto, using(crate::proofs::Tagging::page_tagged))]
pub fn no_text_adds_a_tag()
    ensures { (title : List ℕ) → (rows : List Row) → tags (page_text title rows) ≡ page_tags rows }
{}
