// Two lists judged at the programs' settings: width 32, stores of 4,096 nodes and 1,024 values, the proportional schedule.
#![tactic(auto)]

ghost use Rattle.std.specs.Prelude.{◌≡◌};
ghost use Rattle.stores.specs.Columns.{columns_of};
ghost use Rattle.pairs.specs.Pair.{gate_count, along_report, lists_report};
ghost use Rattle.pairs.specs.Lent.{columns_in};

use miters::Report;
use stores::Store;

// The settings of the programs: the width, the nodes and the values of a store, and the steps that any two lists have at the most.
const WIDTH: u32 = 32;

const NODES: usize = 4096;

const VALUES: usize = 1024;

const STEPS: usize = 8192;

// How many gates a list has: none where it is refused.
#[tactic(auto, unfolding(crate::specs::Pair::gate_count))]
fn count_gates(list: &[u8]) -> u32
    ensures { result ≡ gate_count list.now }
{
    lists::check_list(list, circuits::base_limits()).map_or(0, |head| head.gates)
}

// The arrays of a store of the programs' sizes.
#[derive(Clone, Copy)]
struct Arrays {
    level: [u32; NODES],
    low: [u32; NODES],
    high: [u32; NODES],
    a: [i32; VALUES],
    b: [i32; VALUES],
    c: [i32; VALUES],
    d: [i32; VALUES],
}

const EMPTY: Arrays = Arrays {
    level: [0; NODES],
    low: [0; NODES],
    high: [0; NODES],
    a: [0; VALUES],
    b: [0; VALUES],
    c: [0; VALUES],
    d: [0; VALUES],
};

impl Arrays {
    // The store that borrows them.
    fn store(&mut self) -> Store<'_>
        ensures { columns_of result ≡ columns_in self.old }
    {
        let Arrays {
            level,
            low,
            high,
            a,
            b,
            c,
            d,
        } = self;
        Store {
            level,
            low,
            high,
            a,
            b,
            c,
            d,
        }
    }
}

// The report on two lists along a schedule, which come apart as the call takes them, in stores of the program's sizes.
fn judge_along(u: &[u8], v: &[u8], schedule: &[u8]) -> Report
    ensures { result ≡ along_report u.now v.now schedule.now }
{
    let mut first = EMPTY;
    let mut second = EMPTY;
    judges::judge(
        u,
        v,
        schedule,
        WIDTH,
        &mut first.store(),
        &mut second.store(),
    )
}

// The report on two lists along their proportional schedule.
pub fn judge_lists(u: &[u8], v: &[u8]) -> Report
    ensures { result ≡ lists_report u.now v.now }
{
    let mut buffer = [0; STEPS];
    let made = schedules::proportional(count_gates(u), count_gates(v), &mut buffer);
    let steps = made.unwrap() as usize;
    judge_along(u, v, &buffer[..steps])
}
