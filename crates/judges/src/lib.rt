// The call that judges two gate lists: the checks, the run, the report, and what the stores hold then.
#![tactic(auto)]

ghost use Rattle.std.specs.Prelude.{◌≡◌, length};
ghost use Rattle.stores.specs.Columns.{columns_of, SameColumns};
ghost use Rattle.steps.specs.Stepping as stepping;
ghost use Rattle.judges.specs.Answer.{answer};
ghost use Rattle.judges.specs.Calls.{Passed, answer_along, AtMost, Roomy, leaving};

use algebra::Entry;
use checks::Lengths;
use choices::Course;
use miters::Report;
use plans::{Scratch, Sizes};
use stores::Store;

// The slots kept of the second store.
const NOTHING: usize = 0;

// The scratch for stores of up to 4,096 nodes and values: as many terminals, the slots of an index (one for each of them, and 8,192
// heads), and those of the computed table (6 for each of them, and 4 for each of 32,768 entries).
const SMALL_STORE: usize = 4096;

const SMALL_INDEX: usize = 12_288;

const SMALL_TABLE: usize = 155_648;

// The same for stores of any lengths that the rules allow: 65,536 heads and as many entries.
const LARGE_STORE: usize = 65_536;

const LARGE_INDEX: usize = 131_072;

const LARGE_TABLE: usize = 655_360;

// The run of a pair that passed the checks, in scratch that has room for it; the second store and what the first does not keep become 0.
// The two stores come apart, here and in a run: of slices that are lent through a struct within a struct, the function that lends them is not
// told what they become.
fn judge_in(
    course: &Course<'_>,
    sizes: Sizes,
    first: &mut Store<'_>,
    second: &mut Store<'_>,
    scratch: &mut Scratch<'_>,
) -> Report
    requires passed { Passed course.now sizes.width (columns_of first.old) (columns_of second.old) }
    requires scratch { stepping.Scratch (length first.old.level.now) (length first.old.a.now) sizes scratch.old }
    ensures answer { leaving result (columns_of first.new) (columns_of second.new)
        ≡ answer_along course.now sizes.width (columns_of first.old) (columns_of second.old) }
    ensures same_first { SameColumns first.old first.new }
    ensures same_second { SameColumns second.old second.new }
{
    let ended = runs::run(course, sizes, first, second, scratch);
    second.wipe(NOTHING, NOTHING);
    let used = endings::kept(ended);
    first.wipe(used.nodes as usize, used.values as usize);
    endings::report(&first.view(), course.n, ended)
}

// The run in scratch for stores of up to STORE nodes and values, in a frame of its own: 786,432 bytes at the small sizes, 4,718,592
// at the large ones.
#[inline(never)]
fn judge_within<const STORE: usize, const INDEX: usize, const TABLE: usize>(
    course: &Course<'_>,
    width: u32,
    first: &mut Store<'_>,
    second: &mut Store<'_>,
) -> Report
    requires passed { Passed course.now width (columns_of first.old) (columns_of second.old) }
    requires roomy { Roomy STORE INDEX TABLE }
    requires at_most { AtMost STORE (columns_of first.old) }
    ensures answer { leaving result (columns_of first.new) (columns_of second.new)
        ≡ answer_along course.now width (columns_of first.old) (columns_of second.old) }
    ensures same_first { SameColumns first.old first.new }
    ensures same_second { SameColumns second.old second.new }
{
    let mut terminals = [Entry::default(); STORE];
    let mut node_index = [0; INDEX];
    let mut value_index = [0; INDEX];
    let mut memo = [0; TABLE];
    let sizes = Sizes {
        width,
        heads: (INDEX - STORE) as u32,
        slots: ((TABLE - 6 * STORE) / 4) as u32,
    };
    let values = first.a.len();
    let mut scratch = Scratch {
        terminals: &mut terminals[..values],
        node_index: &mut node_index,
        value_index: &mut value_index,
        memo: &mut memo,
    };
    judge_in(course, sizes, first, second, &mut scratch)
}

// The run in scratch of the smaller size that has room. Each size keeps a frame of its own, and the call itself needs neither.
fn judge_sized(
    course: &Course<'_>,
    width: u32,
    first: &mut Store<'_>,
    second: &mut Store<'_>,
) -> Report
    requires { Passed course.now width (columns_of first.old) (columns_of second.old) }
    ensures answer { leaving result (columns_of first.new) (columns_of second.new)
        ≡ answer_along course.now width (columns_of first.old) (columns_of second.old) }
    ensures same_first { SameColumns first.old first.new }
    ensures same_second { SameColumns second.old second.new }
{
    if first.level.len() <= SMALL_STORE && first.a.len() <= SMALL_STORE {
        judge_within::<SMALL_STORE, SMALL_INDEX, SMALL_TABLE>(course, width, first, second)
    } else {
        judge_within::<LARGE_STORE, LARGE_INDEX, LARGE_TABLE>(course, width, first, second)
    }
}

// The verdict on list u against list v along a schedule, in numbers of the width w, in two lent stores. The lists and the schedule come
// apart, as the C interface lends them.
pub fn judge(
    u: &[u8],
    v: &[u8],
    schedule: &[u8],
    w: u32,
    first: &mut Store<'_>,
    second: &mut Store<'_>,
) -> Report
    ensures answer { leaving result (columns_of first.new) (columns_of second.new)
        ≡ answer u.now v.now schedule.now w (columns_of first.old) (columns_of second.old) }
    ensures same_first { SameColumns first.old first.new }
    ensures same_second { SameColumns second.old second.new }
{
    match checks::check(u, v, schedule, w, Lengths::of(first), Lengths::of(second)) {
        Ok(course) => judge_sized(&course, w, first, second),
        Err(why) => Report::from(why),
    }
}
