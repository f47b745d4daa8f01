//! A lane of two posts with room for two, turn by turn, on one thread.

ghost use Rattle.std.specs.Prelude.{◌≡◌};
ghost use Rattle.rdm_lane.specs.Ends.{IsSamePost};

use super::*;
use PutError::{Full, Spent};
use Taken::{Empty, Item, Mark};

const X: u32 = 0x58;

const Y: u32 = 0x59;

const Z: u32 = 0x5A;

const W: u32 = 0x57;

const FIRST: Taken<u32> = Item {
    producer: 0,
    number: 0,
    item: X,
};

const OTHER: Taken<u32> = Item {
    producer: 1,
    number: 0,
    item: Z,
};

const SECOND: Taken<u32> = Item {
    producer: 0,
    number: 1,
    item: Y,
};

const MARK_0: Taken<u32> = Mark { producer: 0 };

const MARK_1: Taken<u32> = Mark { producer: 1 };

#[test]
fn two_posts_take_turns(rt: HostRuntime) -> Result<(), Fail> {
    let (mut take, mut zero, one) = lane_of_two(&rt, rt.alloc(), 2, 2);
    let one = fills(&rt, &mut zero, one);
    gives(&rt, &mut take, &[FIRST]);
    let one = closed(&rt, one);
    gives(&rt, &mut take, &[OTHER]);
    puts(&rt, &mut zero, Y, Ok(1));
    gives(&rt, &mut take, &[MARK_1, SECOND]);
    puts(&rt, &mut zero, W, Err(Spent(W)));
    gives(&rt, &mut take, &[Empty]);
    let zero = closed(&rt, zero);
    gives(&rt, &mut take, &[MARK_0, Taken::Closed, Taken::Closed]);
    let settled = settled_of_two(&rt, rt.alloc(), take, zero, one)?;
    shows(
        &rt,
        &settled,
        &[FIRST, OTHER, MARK_1, SECOND, MARK_0],
        &[X, Y],
        &[Z],
    );
    Ok(())
}

#[test]
fn posts_that_put_nothing_close(rt: HostRuntime) -> Result<(), Fail> {
    let (mut take, zero, one) = lane_of_two(&rt, rt.alloc(), 2, 2);
    gives(&rt, &mut take, &[Empty]);
    let zero = closed(&rt, zero);
    gives(&rt, &mut take, &[MARK_0, Empty]);
    let one = closed(&rt, one);
    gives(&rt, &mut take, &[MARK_1, Taken::Closed]);
    let settled = settled_of_two(&rt, rt.alloc(), take, zero, one)?;
    shows(&rt, &settled, &[MARK_0, MARK_1], &[], &[]);
    Ok(())
}

/// A post puts an item, which is numbered or refused.
fn puts<R: Wait + Abort>(
    rt: &R,
    post: &mut Post<u32>,
    item: u32,
    answer: Result<u32, PutError<u32>>,
)
    ensures { IsSamePost post.old post.new }
{
    let is_answer = post.put(rt, item) == answer;
    assert!(rt; is_answer, "{item}");
}

/// Post 0 and post 1 fill the lane, and the lane refuses a further item and a mark.
fn fills<R: Wait + Abort>(rt: &R, zero: &mut Post<u32>, mut one: Post<u32>) -> Post<u32>
    ensures zero { IsSamePost zero.old zero.new }
    ensures one { IsSamePost one result }
{
    puts(rt, zero, X, Ok(0));
    puts(rt, &mut one, Z, Ok(0));
    puts(rt, zero, Y, Err(Full(Y)));
    one.close(rt).err().expect(rt, "no room for a mark")
}

/// The lists of the ends are these: what was taken, and what each post put. There is no third post, and no fourth.
fn shows<R: Abort>(
    rt: &R,
    settled: &Settled<u32>,
    taken: &[Taken<u32>],
    zero: &[u32],
    one: &[u32],
) {
    let is_taken = settled.taken() == taken;
    let are_posted = settled.posted(0) == zero && settled.posted(1) == one;
    let is_all = settled.posted(2).is_empty() && settled.posted(3).is_empty();
    assert!(rt; is_taken && are_posted && is_all);
}
