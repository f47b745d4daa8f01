//! What is told of expectations.

ghost use Rattle.std.specs.Prelude.{IfOk};
ghost use Rattle.rdm_expect.specs.Sheets.{IsSheet};

use rdm_expect::{Expectation, Sheet, SheetError, judge, parse, put_junit, put_report, tally_of};
use rdm_frame::Uid;
use rdm_host::fault::Fault;
use rdm_host::host::Host;
use rdm_host::source::save;
use rdm_script::ScriptError;
use rdm_trace::Line;
use std::alloc::Global;

/// The script and the expectations of a text, which messages call by this name.
pub fn sheet_in<'a>(alloc: Global, name: &'a str, text: &[u8]) -> Result<Sheet, Fault<'a>>
    ensures { IfOk result (λ sheet. IsSheet text.now sheet.script.items sheet.expectations.items) }
{
    match parse(alloc, text) {
        Ok(sheet) => Ok(sheet),
        Err(SheetError::OutOfMemory) => Err(Fault::Memory),
        Err(SheetError::TooLong) => Err(Fault::NoScript(name, ScriptError::TooLong)),
        Err(SheetError::Line(line, flaw)) => Err(Fault::Expectation(name, line, flaw.words())),
    }
}

/// What came of the expectations of a script.
#[derive(Drop)]
pub struct Results {
    /// A line for each that failed or was skipped, and one with how many there are of each; empty if nothing was expected.
    pub report: String,
    /// How many failed.
    pub failed: usize,
}

impl Results {
    /// What came of them by the lines of the trace of the script that has this name, played on the device with this UID. Where a path is given,
    /// it is also written there, as JUnit XML.
    pub fn of<'a, H: Host>(
        rt: H,
        path: Option<&'a str>,
        uid: Uid,
        name: &str,
        expectations: &[Expectation],
        lines: &[Line],
    ) -> Result<Results, Fault<'a>> {
        let alloc = rt.alloc();
        let verdicts = judge(alloc, uid, expectations, lines)?;
        if let Some(path) = path {
            let mut markup = String::new(alloc);
            put_junit(&mut markup, name, expectations, &verdicts)?;
            save(rt, path, markup.as_bytes())?;
        }
        let mut report = String::new(alloc);
        if !expectations.is_empty() {
            put_report(&mut report, None, expectations, &verdicts)?;
        }
        Ok(Results {
            report,
            failed: tally_of(&verdicts).failed,
        })
    }

    /// A fault, if any failed.
    pub fn end<'a>(&self) -> Result<(), Fault<'a>> {
        match self.failed {
            0 => Ok(()),
            failed => Err(Fault::Unmet(failed)),
        }
    }
}
