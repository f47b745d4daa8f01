//! The watcher of a panel: it puts each change that the panel offers into a lane.

ghost use Rattle.std.specs.Prelude.{◌≡◌, IfOk};
ghost use Rattle.rdm_crew.specs.Watchers.{IsUnwatched, IsWatched};

use crate::Panel;
use crate::threads::equipment::WatcherKit;
use crate::threads::joining::Started;
use crate::threads::putting::{close, put};
use crate::threads::waiting::Bell;
use rdm_lane::{ClosedPost, Post};
use rdm_params::Change;
use std::alloc::AllocError;
use std::snapshot::Snapshot;
use std::sync::Wait;
use std::thread;
use std::thread::{Promise, Threads};

/// How many changes a panel may offer in a run.
pub(crate) const MOST_CHANGES: u32 = 1024;

/// What a watcher leaves when it has ended.
#[derive(Drop)]
pub(crate) struct Watched {
    /// Its post of the panel's lane.
    pub changes: ClosedPost<Change>,
    /// Whether it ended because memory was refused.
    pub refused: bool,
}

/// What a watcher promises of that, by the post and the panel that it was given.
#[derive(Drop)]
pub(crate) struct Watches<N> {
    pub changes: Snapshot<Post<Change>>,
    pub panel: Snapshot<N>,
}

impl<N: Panel> Promise<Watched> for Watches<N> {
    ghost kept_by = { λ watches watched. IsWatched (N.offers watches.panel.value) watches.changes.value watched };
}

/// Starts to watch a panel on a thread of its own.
pub(crate) fn watch<N, R>(
    rt: R,
    kit: WatcherKit,
    panel: N,
) -> Result<Started<Watched, Watches<N>>, AllocError>
where
    N: Panel + Send + 'static,
    R: Threads + Wait + Copy + Send + 'static,
    requires { IsUnwatched kit.changes }
    ensures { IfOk result (λ watcher. (watcher.changes.value ≡ kit.changes) × (watcher.panel.value ≡ panel)) }
{
    let WatcherKit { changes, bell } = kit;
    let watches = Watches {
        changes: Snapshot::of(&changes),
        panel: Snapshot::of(&panel),
    };
    let watcher = thread::spawn_with(&rt, watches, move || {
        watch_all(&rt, changes, panel, &bell)
    })?;
    Ok(Started::of(watcher))
}

/// Puts each change that a panel offers, until it offers none or as many as it may, or until memory is refused.
fn watch_all<N: Panel, R: Wait>(rt: &R, changes: Post<Change>, panel: N, bell: &Bell) -> Watched
    requires { IsUnwatched changes }
    ensures { IsWatched (N.offers panel) changes result }
{
    let (mut changes, mut panel) = (changes, panel);
    for number in 0..MOST_CHANGES {
        let Some(change) = panel.next(number) else {
            return ended(rt, changes, false, bell);
        };
        match put(rt, &mut changes, change, bell) {
            Ok(()) => {}
            Err(_) => return ended(rt, changes, true, bell),
        }
    }
    ended(rt, changes, false, bell)
}

/// What a watcher leaves that ends now. It closes its post.
fn ended<R: Wait>(rt: &R, changes: Post<Change>, refused: bool, bell: &Bell) -> Watched
    ensures { (result.changes ≡ changes) × (result.refused ≡ refused) }
{
    let changes = close(rt, changes, bell);
    Watched { changes, refused }
}
