use rdm_frame::{Body, Frame, Uid, Wire, disc_reply, encode};
use rdm_search::{Found, Request, Search, SearchError};
use std::test::Fail;

const CONSOLE: Uid = Uid {
    maker: 0x7FF0,
    device: 9,
};

/// Three fixtures. The first alone lies in the lower half of all UIDs, the others in either half of the upper one.
const FIRST: Uid = Uid {
    maker: 0x1000,
    device: 1,
};

const SECOND: Uid = Uid {
    maker: 0x8000,
    device: 1,
};

const THIRD: Uid = Uid {
    maker: 0xC000,
    device: 1,
};

/// The UID of nobody, in the upper half.
const NOBODY: Uid = Uid {
    maker: 0x9000,
    device: 1,
};

const ALL: Request = Request::UniqueBranch(
    Uid {
        maker: 0,
        device: 0,
    },
    Uid::ALL,
);

const LOWER: Request = Request::UniqueBranch(
    Uid {
        maker: 0,
        device: 0,
    },
    Uid {
        maker: 0x7FFF,
        device: 0xFFFF_FFFF,
    },
);

const UPPER: Request = Request::UniqueBranch(
    Uid {
        maker: 0x8000,
        device: 0,
    },
    Uid::ALL,
);

const FIRST_QUARTER: Request = Request::UniqueBranch(
    Uid {
        maker: 0,
        device: 0,
    },
    Uid {
        maker: 0x3FFF,
        device: 0xFFFF_FFFF,
    },
);

const SECOND_QUARTER: Request = Request::UniqueBranch(
    Uid {
        maker: 0x4000,
        device: 0,
    },
    Uid {
        maker: 0x7FFF,
        device: 0xFFFF_FFFF,
    },
);

const THIRD_QUARTER: Request = Request::UniqueBranch(
    Uid {
        maker: 0x8000,
        device: 0,
    },
    Uid {
        maker: 0xBFFF,
        device: 0xFFFF_FFFF,
    },
);

const LAST_QUARTER: Request = Request::UniqueBranch(
    Uid {
        maker: 0xC000,
        device: 0,
    },
    Uid::ALL,
);

/// What is heard after a request.
#[derive(Clone, Copy, Debug)]
enum Sound {
    Nothing,
    Noise,
    /// What decodes as the answer of this UID to a branch.
    Branch(Uid),
    /// The answer of this UID to its mute.
    Mute(Uid),
}

fn uid(maker: u16, device: u32) -> Uid {
    Uid { maker, device }
}

/// A frame to the console on DISC_MUTE.
fn answer(src: Uid, class: u8, pid: u16, port: u8, data: &[u8]) -> Result<Wire, Fail> {
    Ok(encode(&Frame {
        dst: CONSOLE,
        src,
        tn: 0,
        port,
        count: 0,
        sub: 0,
        class,
        pid,
        body: Body::from_slice(data).ok_or("too long")?,
    }))
}

fn bytes_of(sound: Sound) -> Result<Wire, Fail> {
    match sound {
        Sound::Nothing => Ok(Wire::new()),
        Sound::Noise => Ok(Wire::from_slice(&[0xFE, 0x55]).ok_or("too long")?),
        Sound::Branch(uid) => Ok(Wire::from_slice(&disc_reply(uid)).ok_or("too long")?),
        Sound::Mute(uid) => answer(uid, 0x11, 0x0002, 0x00, &[0x00, 0x00]),
    }
}

/// What the fixtures sound like at once, and all that is asked and heard.
const SEARCHES: [(&str, &[(Request, Sound)]); 5] = [
    (
        "noise, and a UID of nobody",
        &[
            (Request::UnMute, Sound::Nothing),
            (ALL, Sound::Noise),
            (LOWER, Sound::Branch(FIRST)),
            (Request::Mute(FIRST), Sound::Mute(FIRST)),
            (LOWER, Sound::Nothing),
            (UPPER, Sound::Branch(NOBODY)),
            (Request::Mute(NOBODY), Sound::Nothing),
            (THIRD_QUARTER, Sound::Branch(SECOND)),
            (Request::Mute(SECOND), Sound::Mute(SECOND)),
            (THIRD_QUARTER, Sound::Nothing),
            (LAST_QUARTER, Sound::Branch(THIRD)),
            (Request::Mute(THIRD), Sound::Mute(THIRD)),
            (LAST_QUARTER, Sound::Nothing),
        ],
    ),
    (
        "one of them",
        &[
            (Request::UnMute, Sound::Nothing),
            (ALL, Sound::Branch(FIRST)),
            (Request::Mute(FIRST), Sound::Mute(FIRST)),
            (ALL, Sound::Branch(SECOND)),
            (Request::Mute(SECOND), Sound::Mute(SECOND)),
            (ALL, Sound::Branch(THIRD)),
            (Request::Mute(THIRD), Sound::Mute(THIRD)),
            (ALL, Sound::Nothing),
        ],
    ),
    (
        "one that was found, and a broadcast",
        &[
            (Request::UnMute, Sound::Nothing),
            (ALL, Sound::Branch(FIRST)),
            (Request::Mute(FIRST), Sound::Mute(FIRST)),
            (ALL, Sound::Branch(FIRST)),
            (Request::Mute(FIRST), Sound::Mute(FIRST)),
            (LOWER, Sound::Nothing),
            (
                UPPER,
                Sound::Branch(Uid {
                    maker: 0x9000,
                    device: 0xFFFF_FFFF,
                }),
            ),
            (THIRD_QUARTER, Sound::Branch(SECOND)),
            (Request::Mute(SECOND), Sound::Mute(SECOND)),
            (THIRD_QUARTER, Sound::Nothing),
            (LAST_QUARTER, Sound::Branch(THIRD)),
            (Request::Mute(THIRD), Sound::Mute(THIRD)),
            (LAST_QUARTER, Sound::Nothing),
        ],
    ),
    (
        "one of them, and altered answers",
        &[
            (Request::UnMute, Sound::Nothing),
            (ALL, Sound::Noise),
            (LOWER, Sound::Branch(NOBODY)),
            (FIRST_QUARTER, Sound::Branch(FIRST)),
            (Request::Mute(FIRST), Sound::Noise),
            (Request::Mute(FIRST), Sound::Noise),
            (Request::Mute(FIRST), Sound::Mute(FIRST)),
            (FIRST_QUARTER, Sound::Nothing),
            (SECOND_QUARTER, Sound::Nothing),
            (UPPER, Sound::Branch(SECOND)),
            (Request::Mute(SECOND), Sound::Mute(SECOND)),
            (UPPER, Sound::Branch(THIRD)),
            (Request::Mute(THIRD), Sound::Branch(THIRD)),
            (Request::Mute(THIRD), Sound::Mute(THIRD)),
            (UPPER, Sound::Nothing),
        ],
    ),
    (
        "a fixture elsewhere",
        &[
            (Request::UnMute, Sound::Nothing),
            (ALL, Sound::Noise),
            (LOWER, Sound::Branch(FIRST)),
            (Request::Mute(FIRST), Sound::Mute(FIRST)),
            (LOWER, Sound::Nothing),
            (UPPER, Sound::Branch(FIRST)),
            (THIRD_QUARTER, Sound::Branch(SECOND)),
            (Request::Mute(SECOND), Sound::Mute(SECOND)),
            (THIRD_QUARTER, Sound::Nothing),
            (LAST_QUARTER, Sound::Branch(THIRD)),
            (Request::Mute(THIRD), Sound::Mute(THIRD)),
            (LAST_QUARTER, Sound::Nothing),
        ],
    ),
];

/// Lets the search hear these sounds, each after the request beside it.
fn hear_all(
    rt: &impl std::process::Abort,
    search: &mut Search,
    steps: &[(Request, Sound)],
) -> Result<(), Fail> {
    let mut tn = 0;
    for (request, sound) in steps {
        assert!(rt;
            search.next()? == Some(request.frame(CONSOLE, tn)),
            "before {sound:?}"
        );
        search.hear(bytes_of(*sound)?.as_slice())?;
        tn = tn.wrapping_add(1);
    }
    Ok(())
}

#[test]
fn three_fixtures_are_found(rt: HostRuntime) -> Result<(), Fail> {
    for (collision, steps) in SEARCHES {
        let mut search = Search::new(rt.alloc(), CONSOLE, 15);
        hear_all(&rt, &mut search, steps)?;
        assert!(rt; search.next()? == None, "{collision}");
        let found = search.into_found();
        assert!(rt; found.len() == 3, "{collision}");
        for (one, uid) in found.iter().zip([FIRST, SECOND, THIRD]) {
            assert!(rt; one.uid == uid, "{collision}");
        }
    }
    Ok(())
}

#[test]
fn requests_are_the_printed_frames(rt: HostRuntime) {
    let head = [
        0xCC, 0x01, 0x18, 0xFF, 0xFF, 0xFF, 0xFF, 0xFF, 0xFF, 0x7F, 0xF0, 0x00, 0x00, 0x00, 0x09,
        0x05, 0x01, 0x00, 0x00, 0x00, 0x10, 0x00, 0x03, 0x00, 0x08, 0x70,
    ];
    assert!(rt; encode(&Request::UnMute.frame(CONSOLE, 5)).as_slice() == head.as_slice());
    let branch = [
        0xCC, 0x01, 0x24, 0xFF, 0xFF, 0xFF, 0xFF, 0xFF, 0xFF, 0x7F, 0xF0, 0x00, 0x00, 0x00, 0x09,
        0x05, 0x01, 0x00, 0x00, 0x00, 0x10, 0x00, 0x01, 0x0C, 0x80, 0x00, 0x00, 0x00, 0x00, 0x00,
        0xFF, 0xFF, 0xFF, 0xFF, 0xFF, 0xFF, 0x0F, 0x00,
    ];
    assert!(rt; encode(&UPPER.frame(CONSOLE, 5)).as_slice() == branch.as_slice());
    let mute = [
        0xCC, 0x01, 0x18, 0x10, 0x00, 0x00, 0x00, 0x00, 0x01, 0x7F, 0xF0, 0x00, 0x00, 0x00, 0x09,
        0x05, 0x01, 0x00, 0x00, 0x00, 0x10, 0x00, 0x02, 0x00, 0x02, 0x86,
    ];
    assert!(rt; encode(&Request::Mute(FIRST).frame(CONSOLE, 5)).as_slice() == mute.as_slice());
}

#[test]
fn only_an_answer_to_the_mute_counts(rt: HostRuntime) -> Result<(), Fail> {
    let binding = [0x00, 0x02, 0x12, 0x34, 0x00, 0x00, 0x00, 0x07];
    for (bytes, control, other) in [
        (answer(FIRST, 0x11, 0x0002, 0x00, &[])?, 0, None),
        (answer(FIRST, 0x11, 0x0002, 0x00, &[0x00, 0x08])?, 8, None),
        (
            answer(FIRST, 0x11, 0x0002, 0x00, &binding)?,
            2,
            Some(uid(0x1234, 7)),
        ),
    ] {
        let mut search = Search::new(rt.alloc(), CONSOLE, 9);
        hear_all(
            &rt,
            &mut search,
            &[
                (Request::UnMute, Sound::Nothing),
                (ALL, Sound::Branch(FIRST)),
            ],
        )?;
        search.hear(bytes.as_slice())?;
        let found = Found {
            uid: FIRST,
            control,
            binding: other,
        };
        assert!(rt; search.found() == [found].as_slice());
    }
    for bytes in [
        answer(SECOND, 0x11, 0x0002, 0x00, &[0x00, 0x00])?,
        answer(FIRST, 0x21, 0x0002, 0x00, &[0x00, 0x00])?,
        answer(FIRST, 0x11, 0x0003, 0x00, &[0x00, 0x00])?,
        answer(FIRST, 0x11, 0x0002, 0x02, &[0x00, 0x00])?,
        bytes_of(Sound::Branch(FIRST))?,
    ] {
        let mut search = Search::new(rt.alloc(), CONSOLE, 12);
        hear_all(
            &rt,
            &mut search,
            &[
                (Request::UnMute, Sound::Nothing),
                (ALL, Sound::Branch(FIRST)),
            ],
        )?;
        for tn in 3..11 {
            search.hear(bytes.as_slice())?;
            assert!(rt; search.next()? == Some(Request::Mute(FIRST).frame(CONSOLE, tn)));
            assert!(rt; search.unsure() == [].as_slice());
        }
        search.hear(bytes.as_slice())?;
        assert!(rt; search.found() == [].as_slice());
        assert!(rt; search.unsure() == [FIRST].as_slice());
        assert!(rt; search.next()? == Some(LOWER.frame(CONSOLE, 11)));
    }
    Ok(())
}

#[test]
fn a_search_goes_on_from_what_was_found(rt: HostRuntime) -> Result<(), Fail> {
    let first = Found {
        uid: FIRST,
        control: 0,
        binding: None,
    };
    let mut search = Search::resume(CONSOLE, [first].to_vec(rt.alloc())?, 3);
    hear_all(
        &rt,
        &mut search,
        &[
            (ALL, Sound::Branch(THIRD)),
            (Request::Mute(THIRD), Sound::Mute(THIRD)),
        ],
    )?;
    assert!(rt; search.found().len() == 2);
    assert!(rt; search.next()? == Some(ALL.frame(CONSOLE, 2)));
    search.hear(&[])?;
    assert!(rt; search.next()? == None);
    Ok(())
}

#[test]
fn a_line_that_always_sounds_reaches_the_limit(rt: HostRuntime) -> Result<(), Fail> {
    let mut search = Search::new(rt.alloc(), CONSOLE, 2);
    hear_all(
        &rt,
        &mut search,
        &[(Request::UnMute, Sound::Nothing), (ALL, Sound::Noise)],
    )?;
    assert!(rt; search.next() == Err(SearchError::Limit));
    Ok(())
}
