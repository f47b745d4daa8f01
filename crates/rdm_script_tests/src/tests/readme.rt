//! The test tool of docs/TESTERS.md, as its text has it.

use rdm_script::run_script;
use std::test::Fail;

/// What the standard prescribes for a start address that there isn't, and for one that was kept.
const EXPECTED: &str = "send CC011A7FF0000000017FF00000000200010000003000F00202580545
reply CC011A7FF0000000027FF00000000100020000003100F002000604F3
heard reply
send CC01187FF0000000017FF00000000201010000002000F00004D8
reply CC011A7FF0000000027FF00000000101000000002100F002000104DD
heard reply
end
";

#[test]
fn a_test_tool_compares_a_trace(rt: HostRuntime) -> Result<(), Fail> {
    // SET DMX_START_ADDRESS 600 is refused with DATA_OUT_OF_RANGE, and the address stays as it was.
    let mut script = b"set dev 0000 00F0 0258\nget dev 0000 00F0 -\n".as_slice();
    let mut trace = Vec::new(rt.alloc());
    run_script(rt, rt.alloc(), &mut script, &mut trace)?;
    assert_eq!(rt; trace.as_slice(), EXPECTED.as_bytes());
    Ok(())
}
