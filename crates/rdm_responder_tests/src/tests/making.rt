//! Which responders can be made, and why others are refused.

use super::DEVICE;
use rdm_frame::Uid;
use rdm_params::Profile;
use rdm_responder::{NewError, Responder, Settings};
use std::alloc::Global;
use std::process::Abort;

/// The broadcast to all devices of the maker.
const BROADCAST: Uid = Uid {
    maker: 0x7FF0,
    device: Uid::EVERY_DEVICE,
};

/// A device whose device ID is 0.
const DEVICE_0: Uid = Uid {
    maker: 0x7FF0,
    device: 0,
};

/// The same of the maker with ID 0.
const ALL_0: Uid = Uid {
    maker: 0,
    device: 0,
};

/// A UID, for how many results there is room, and why there is no such responder.
const SIZES: &[(Uid, u16, Option<NewError>)] = &[
    (DEVICE, 1, None),
    (DEVICE, 8, None),
    (DEVICE, 1024, None),
    (DEVICE_0, 8, None),
    (ALL_0, 8, None),
    (DEVICE, 0, Some(NewError::BadSize)),
    (DEVICE, 1025, Some(NewError::BadSize)),
    (BROADCAST, 8, Some(NewError::BadUid)),
    (BROADCAST, 0, Some(NewError::BadUid)),
];

#[test]
fn a_responder_is_made_or_refused(rt: HostRuntime) {
    assert!(rt; Uid::all_of(0x7FF0) == BROADCAST);
    for (uid, queue_size, refusal) in SIZES {
        let told = refusal_of(rt.alloc(), *uid, Profile::demo(0), *queue_size);
        assert!(rt; told == *refusal, "{uid:?} {queue_size}");
    }
}

/// Why there is no responder, if there is none.
fn refusal_of(alloc: Global, uid: Uid, profile: Profile, queue_size: u16) -> Option<NewError> {
    Responder::new(alloc, uid, profile, queue_size).err()
}

/// The same with a number of status entries behind the size of the queue.
const ENTRIES: &[(Uid, u16, u16, Option<NewError>)] = &[
    (DEVICE, 8, 1, None),
    (DEVICE, 8, 64, None),
    (DEVICE, 8, 1024, None),
    (DEVICE, 8, 0, Some(NewError::BadSize)),
    (DEVICE, 8, 1025, Some(NewError::BadSize)),
    (DEVICE, 0, 64, Some(NewError::BadSize)),
    (BROADCAST, 8, 0, Some(NewError::BadUid)),
];

#[test]
fn entries_are_1_to_1024(rt: HostRuntime) {
    for (uid, queue_size, entries, refusal) in ENTRIES {
        let settings = Settings {
            entries: *entries,
            ..Settings::usual(*uid, *queue_size)
        };
        let profile = Box::new(rt.alloc(), Profile::demo(0)).expect(&rt, "memory");
        let made = Responder::with_settings(rt.alloc(), &settings, profile);
        // Without a profile the same is said of the settings.
        let told = (made.err(), settings.refusal());
        assert!(rt;
            told == (*refusal, *refusal),
            "{uid:?} {queue_size} {entries}"
        );
    }
}

#[test]
fn sub_devices_are_512_at_most(rt: HostRuntime) {
    for (subs, refusal) in &[(2, None), (512, None), (513, Some(NewError::BadProfile))] {
        let told = refusal_of(rt.alloc(), DEVICE, Profile::demo(*subs), 8);
        assert!(rt; told == *refusal, "{subs}");
    }
}

/// A profile that begins at no address.
fn no_start() -> Profile {
    let mut profile = Profile::demo(0);
    profile.root.start = 0;
    profile
}

const REASONS: &[(Uid, u16, NewError)] = &[
    (DEVICE, 8, NewError::BadProfile),
    (DEVICE, 0, NewError::BadSize),
    (BROADCAST, 0, NewError::BadUid),
];

/// Of several reasons it is told that of the UID before that of a size, and that before that of the profile.
#[test]
fn the_first_reason_is_told(rt: HostRuntime) {
    for (uid, queue_size, refusal) in REASONS {
        let told = refusal_of(rt.alloc(), *uid, no_start(), *queue_size);
        assert!(rt; told == Some(*refusal), "{uid:?} {queue_size}");
    }
    for (entries, refusal) in &[(1, NewError::BadProfile), (1025, NewError::BadSize)] {
        assert!(rt;
            with_no_start(&rt, rt.alloc(), *entries) == Some(*refusal),
            "{entries}"
        );
    }
}

/// Why there is no responder of that profile, with room for so many entries.
fn with_no_start(rt: &impl Abort, alloc: Global, entries: u16) -> Option<NewError> {
    let settings = Settings {
        entries,
        ..Settings::usual(DEVICE, 8)
    };
    let profile = Box::new(alloc, no_start()).expect(rt, "memory");
    Responder::with_settings(alloc, &settings, profile).err()
}
