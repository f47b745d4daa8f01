//! What came of expectations, as JUnit XML.

use crate::judging::Verdict;
use crate::sheet::Expectation;
use crate::tally::tally_of;
use crate::telling::Failure;
use rdm_markup::{Place, put_escaped};
use std::alloc::AllocError;
use std::fmt::Write;

/// What a document of JUnit XML begins with.
const HEAD: &str = "<?xml version=\"1.0\" encoding=\"UTF-8\"?>\n";

/// Puts what came of expectations at the end of markup, as a document of JUnit XML with the one `testsuite` of `put_suite`.
pub fn put_junit(
    markup: &mut String,
    name: &str,
    expectations: &[Expectation],
    verdicts: &[Verdict],
) -> Result<(), AllocError> {
    markup.push_str(HEAD)?;
    put_suite(markup, name, expectations, verdicts)
}

/// Puts a document of JUnit XML at the end of markup that has these suites, each of which `put_suite` has put into them.
pub fn put_suites(markup: &mut String, suites: &str) -> Result<(), AllocError> {
    markup.push_str(HEAD)?;
    markup.push_str("<testsuites>\n")?;
    markup.push_str(suites)?;
    markup.push_str("</testsuites>\n")
}

/// Puts what came of expectations at the end of markup, as a `testsuite` of this name with a `testcase` for each expectation. Only tests show
/// the markup around the texts; `put_escaped` says how a text stands in it.
pub fn put_suite(
    markup: &mut String,
    name: &str,
    expectations: &[Expectation],
    verdicts: &[Verdict],
) -> Result<(), AllocError> {
    markup.push_str("<testsuite name=\"")?;
    put_escaped(markup, Place::Attribute, name)?;
    let tests = expectations.len();
    let tally = tally_of(verdicts);
    let failed = tally.failed;
    let skipped = tally.skipped;
    write!(
        markup,
        "\" tests=\"{tests}\" failures=\"{failed}\" errors=\"0\" skipped=\"{skipped}\">\n"
    )?;
    for (expectation, verdict) in expectations.iter().zip(verdicts) {
        put_case(markup, name, expectation, verdict)?;
    }
    markup.push_str("</testsuite>\n")
}

/// Puts the `testcase` of an expectation, which has the name of its line and its words.
fn put_case(
    markup: &mut String,
    name: &str,
    expectation: &Expectation,
    verdict: &Verdict,
) -> Result<(), AllocError> {
    let Expectation { line, wish, .. } = expectation;
    markup.push_str("  <testcase classname=\"")?;
    put_escaped(markup, Place::Attribute, name)?;
    write!(markup, "\" name=\"line {line}: expect {wish}\"")?;
    match verdict {
        Verdict::Passed => markup.push_str("/>\n"),
        Verdict::Failed(came) => {
            let failure = Failure { wish, came };
            write!(
                markup,
                ">\n    <failure message=\"{failure}\"/>\n  </testcase>\n"
            )
        }
        Verdict::Skipped => markup.push_str(
            ">\n    <skipped message=\"the trace has no times\"/>\n  </testcase>\n",
        ),
    }
}
