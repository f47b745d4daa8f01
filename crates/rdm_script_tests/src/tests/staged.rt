//! Scripts on a fixture of one's own: another UID, three sub-devices, and a lamp whose second strike fails.

use super::Ends;
use super::scripts::{is_written, outcome_of};
use arrayvec::ArrayVec;
use rdm_crew::RunError;
use rdm_frame::Uid;
use rdm_outcomes::{Rule, Task};
use rdm_params::{Outcome, Profile, Severity};
use rdm_script::{
    DemoPanel, ProgramError, RuledPart, Spelling, Stage, play_script, ruled_parts_fit,
};
use rdm_trace::text_of;
use std::alloc::Global;
use std::process::Abort;
use std::sync::Wait;
use std::thread::Threads;

pub(super) const DEVICE: Uid = Uid {
    maker: 0x1234,
    device: 0x5678_9ABC,
};

const BAD_SETUP: Ends = Ends::Stops(ProgramError::Run(RunError::BadSetup));

/// The second job to switch the lamp on fails.
const SECOND_STRIKE: Rule = Rule {
    task: Task::LampState,
    value: Some(2),
    turn: Some(2),
    outcome: Outcome::Failed {
        severity: Severity::Error,
        id: 0x8001,
        v1: 2,
        v2: 0,
    },
};

/// Scripts, and how they end. The frames were worked out by hand from the packet format.
const STAGED: &[(&str, Ends)] = &[
    (
        "get dev 0000 1000 -\n",
        Ends::Prints(
            "send CC0118123456789ABC7FF00000000200010000002010000004F1
reply CC01197FF000000002123456789ABC0000000000211000010004F3
heard reply
end
",
        ),
    ),
    (
        "get maker 0000 1000 -\n",
        Ends::Prints(
            "send CC01181234FFFFFFFF7FF00000000200010000002010000006C9
reply none
heard nothing
end
",
        ),
    ),
    // The device of the demonstration isn't there.
    (
        "get 7FF0:00000001 0000 1000 -\n",
        Ends::Prints(
            "send CC01187FF0000000017FF00000000200010000002010000003F7
reply none
heard nothing
end
",
        ),
    ),
    // More sub-devices than the fixture has; all of them; fewer, of which none is the third; and none.
    ("setup 4 8 advisory\n", BAD_SETUP),
    (
        "setup 3 8 advisory\nget dev 0003 1000 -\n",
        Ends::Prints(
            "send CC0118123456789ABC7FF00000000200010000032010000004F4
reply CC01197FF000000002123456789ABC0000000003211000010004F6
heard reply
end
",
        ),
    ),
    (
        "setup 2 8 advisory\nget dev 0003 1000 -\n",
        Ends::Prints(
            "send CC0118123456789ABC7FF00000000200010000032010000004F4
reply CC011A7FF000000002123456789ABC00020000032110000200090503
heard reply
end
",
        ),
    ),
    (
        "get dev 0001 1000 -\n",
        Ends::Prints(
            "send CC0118123456789ABC7FF00000000200010000012010000004F2
reply CC011A7FF000000002123456789ABC00020000012110000200090501
heard reply
end
",
        ),
    ),
    // The lamp strikes, and then it fails to. A message of the first job waits meanwhile.
    (
        "set dev 0000 0403 02
settle 100000000
set dev 0000 0403 02
",
        Ends::Prints(
            "send CC0119123456789ABC7FF0000000020001000000300403010204FC
reply CC011A7FF000000002123456789ABC0001000000310403020032052F
job 0 0
heard reply
arrive 0 0 done
send CC0119123456789ABC7FF0000000020101000000300403010204FD
reply CC011A7FF000000002123456789ABC01010100003104030200320531
job 0 1
heard reply
arrive 0 1 failed 04 8001 0002 0000
end
",
        ),
    ),
];

/// UIDs that no fixture of a script may have: the controller's, and a broadcast.
pub(super) const OTHERS: &[Uid] = &[
    Uid {
        maker: 0x7FF0,
        device: 0x0000_0002,
    },
    Uid::ALL,
];

/// The fixture with this UID.
pub(super) fn stage(device: Uid) -> Stage<RuledPart, RuledPart, DemoPanel> {
    let mut rules = ArrayVec::new();
    rules.push(SECOND_STRIKE);
    Stage {
        device,
        profile: Profile::demo(3),
        spelling: Spelling::Strict,
        first: RuledPart::new(&rules),
        second: RuledPart::new(&rules),
        panel: DemoPanel,
    }
}

/// A script is played on a fixture, and ends so.
pub(super) fn ends_so<T>(
    rt: T,
    alloc: Global,
    stage: Stage<RuledPart, RuledPart, DemoPanel>,
    script: &str,
    ends: Ends,
)
where
    T: Threads + Wait + Abort + Copy + Send + 'static,
{
    ruled_parts_fit();
    let (outcome, written) = match play_script(rt, alloc, script.as_bytes(), stage) {
        Ok(lines) => (Ok(()), text_of(alloc, &lines).expect(&rt, "memory")),
        Err(why) => (Err(ProgramError::from(why)), Vec::new(alloc)),
    };
    assert!(rt; outcome == outcome_of(ends), "{script:?}");
    assert!(rt; is_written(&written, ends), "{script:?} {written:?}");
}

#[test]
fn scripts_play_on_a_fixture_of_ones_own(rt: HostRuntime) {
    for (script, ends) in STAGED {
        ends_so(rt, rt.alloc(), stage(DEVICE), script, *ends);
    }
    for device in OTHERS {
        ends_so(rt, rt.alloc(), stage(*device), "", BAD_SETUP);
    }
}
