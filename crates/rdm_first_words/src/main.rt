//! Plays the script on standard input on the fixture of the demonstration, and prints what went over the bus in words: the first
//! run of the README, and how a program uses the libraries for that. `felosumay play --words` does the same for any fixture.
#![tactic(auto)]

mod fault;

use fault::Fault;
use rdm_device::Profile;
use rdm_script::{DEMO_DEVICE, MOST_BYTES, Spelling, play_demonstration};
use rdm_words::{Known, words_of_lines};
use std::io::{self, Read, Write};

fn main(rt: HostRuntime) -> Result<(), Fault> {
    let mut script = Vec::new(rt.alloc());
    // One byte more than a script may have shows that it is too long.
    let most = MOST_BYTES as u64 + 1;
    rt.reader().take(most).read_to_end(&mut script)?;
    let lines = play_demonstration(rt, rt.alloc(), Spelling::Friendly, &script)?;
    let profile = Profile::demo(0);
    let known = Known::of(DEMO_DEVICE, &profile);
    let words = words_of_lines(rt.alloc(), &lines, &known)?;
    io::writer(&rt).write_all(&words)?;
    Ok(())
}
