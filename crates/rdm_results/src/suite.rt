//! What is told of several scripts.

use rdm_expect::{Expectation, Tally, Verdict, judge, put_report, put_suite, put_suites, tally_of};
use rdm_frame::Uid;
use rdm_host::fault::Fault;
use rdm_host::host::Host;
use rdm_host::source::save;
use rdm_markup::{Place, put_escaped};
use rdm_trace::Line;
use std::alloc::{AllocError, Global};

/// What came of the scripts of a suite.
#[derive(Drop)]
pub struct SuiteResults {
    /// A `testsuite` of JUnit XML for each script.
    markup: String,
    /// How many scripts were played.
    played: usize,
    /// How many weren't.
    left_out: usize,
    /// How many of all expectations hold.
    tally: Tally,
}

impl SuiteResults {
    /// None was played yet.
    pub fn new(alloc: Global) -> SuiteResults {
        SuiteResults {
            markup: String::new(alloc),
            played: 0,
            left_out: 0,
            tally: tally_of(&[]),
        }
    }

    /// The script of this name was played on the device with this UID, and its trace has these lines. Gives its report: a line for each
    /// expectation that failed or was skipped, and one with how many there are of each.
    pub fn take(
        &mut self,
        alloc: Global,
        uid: Uid,
        name: &str,
        expectations: &[Expectation],
        lines: &[Line],
    ) -> Result<String, AllocError> {
        let verdicts = judge(alloc, uid, expectations, lines)?;
        put_suite(&mut self.markup, name, expectations, &verdicts)?;
        self.played = self.played.saturating_add(1);
        self.count(tally_of(&verdicts));
        report_of(alloc, name, expectations, &verdicts)
    }

    /// The script of this name wasn't played, since the device lacks this. Gives the line that says so.
    pub fn leave_out(
        &mut self,
        alloc: Global,
        name: &str,
        lack: &str,
    ) -> Result<String, AllocError> {
        put_left_out(&mut self.markup, name, lack)?;
        self.left_out = self.left_out.saturating_add(1);
        format!(in alloc; "{name}: left out: the device has {lack}\n")
    }

    /// The last line of the report: how many scripts were played, and how many expectations hold.
    pub fn sum(&self, alloc: Global) -> Result<String, AllocError> {
        let SuiteResults {
            played,
            left_out,
            tally,
            ..
        } = self;
        format!(in alloc; "scripts: {played} played, {left_out} left out; expectations: {tally}\n")
    }

    /// Writes what came of all scripts to this path, as JUnit XML.
    pub fn save<'a, H: Host>(&self, rt: H, path: &'a str) -> Result<(), Fault<'a>> {
        let mut document = String::new(rt.alloc());
        put_suites(&mut document, self.markup.as_str())?;
        save(rt, path, document.as_bytes())
    }

    /// A fault, if any expectation failed.
    pub fn end<'a>(&self) -> Result<(), Fault<'a>> {
        match self.tally.failed {
            0 => Ok(()),
            failed => Err(Fault::Unmet(failed)),
        }
    }

    /// Counts the expectations of a script.
    fn count(&mut self, tally: Tally) {
        self.tally = Tally {
            passed: self.tally.passed.saturating_add(tally.passed),
            failed: self.tally.failed.saturating_add(tally.failed),
            skipped: self.tally.skipped.saturating_add(tally.skipped),
        };
    }
}

/// What is told of the expectations of the script of this name.
fn report_of(
    alloc: Global,
    name: &str,
    expectations: &[Expectation],
    verdicts: &[Verdict],
) -> Result<String, AllocError> {
    let mut report = String::new(alloc);
    put_report(&mut report, Some(name), expectations, verdicts)?;
    Ok(report)
}

/// Puts the `testsuite` of a script that wasn't played at the end of markup, since the device lacks this.
fn put_left_out(markup: &mut String, name: &str, lack: &str) -> Result<(), AllocError> {
    markup.push_str("<testsuite name=\"")?;
    put_escaped(markup, Place::Attribute, name)?;
    markup.push_str("\" tests=\"1\" failures=\"0\" errors=\"0\" skipped=\"1\">\n")?;
    markup.push_str("  <testcase classname=\"")?;
    put_escaped(markup, Place::Attribute, name)?;
    markup.push_str("\" name=\"needs\">\n    <skipped message=\"the device has ")?;
    put_escaped(markup, Place::Attribute, lack)?;
    markup.push_str("\"/>\n  </testcase>\n</testsuite>\n")
}
