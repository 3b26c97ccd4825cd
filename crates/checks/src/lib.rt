// The checks before a run: the width, the columns' lengths, the two lists, their qubit counts, the schedule.
#![tactic(auto)]

ghost use Rattle.std.specs.Prelude.{◌≡◌};
ghost use Rattle.stores.specs.Columns.{columns_of};
ghost use Rattle.checks.specs.Checks.{lengths, store_rules, both_rules, check_lists, checks, checked};

use choices::{Course, Lists};
use circuits::Reader;
use miters::{CallFault, Part, Refusal};
use stores::Store;

// The least and the greatest width.
const LEAST_WIDTH: u32 = 2;

const GREATEST_WIDTH: u32 = 32;

// The most nodes and values of a store.
const STORE_LIMIT: usize = 65536;

// The lengths of a store's columns.
#[derive(Clone, Copy)]
pub struct Lengths {
    pub level: usize,
    pub low: usize,
    pub high: usize,
    pub a: usize,
    pub b: usize,
    pub c: usize,
    pub d: usize,
}

impl Lengths {
    // Those of a store's columns.
    pub fn of(store: &Store<'_>) -> Lengths
        ensures { result ≡ lengths (columns_of store.now) }
    {
        Lengths {
            level: store.level.len(),
            low: store.low.len(),
            high: store.high.len(),
            a: store.a.len(),
            b: store.b.len(),
            c: store.c.len(),
            d: store.d.len(),
        }
    }

    // Three node columns of one length up to 65,536, four value columns of one length from 1 to 65,536.
    #[tactic(auto, unfolding(crate::specs::Checks::store_rules))]
    fn fit(self) -> bool
        ensures { result ≡ store_rules self }
    {
        self.level <= STORE_LIMIT
            && self.low == self.level
            && self.high == self.level
            && (1..=STORE_LIMIT).contains(&self.a)
            && self.b == self.a
            && self.c == self.a
            && self.d == self.a
    }

    // Two stores that fit, with room for as many nodes and as many values.
    #[tactic(auto, unfolding(crate::specs::Checks::both_rules))]
    fn agree(self, other: Lengths) -> bool
        ensures { result ≡ both_rules self other }
    {
        self.fit() && other.fit() && self.level == other.level && self.a == other.a
    }
}

// The lists, list 1 to its end before list 2, then their qubit counts and the schedule, as `check` is handed them.
#[tactic(auto, unfolding(crate::specs::Checks::check_lists))]
fn check_lists<'a>(u: &'a [u8], v: &'a [u8], schedule: &'a [u8]) -> Result<Course<'a>, Refusal>
    ensures { result ≡ checked u.entry v.entry schedule.entry (check_lists u.now v.now schedule.now) }
{
    let limits = circuits::base_limits();
    let first = lists::check_list(u, limits).map_err(|why| Refusal::Byte {
        list: Part::First,
        why,
    })?;
    let second = lists::check_list(v, limits).map_err(|why| Refusal::Byte {
        list: Part::Second,
        why,
    })?;
    if first.qubits != second.qubits {
        return Err(Refusal::Call(CallFault::QubitCounts));
    }
    if !schedules::fits(schedule, first.gates, second.gates) {
        return Err(Refusal::Call(CallFault::Schedule));
    }
    Ok(Course {
        lists: Lists {
            first: Reader::new(u, first.first),
            second: Reader::new(v, second.first),
        },
        schedule,
        n: first.qubits,
    })
}

// The checks in the paper's order: the width, the columns, the lists, their counts, the schedule. The three slices come apart, as the C
// interface lends them; what passes is one course, which borrows them. The stores come as their lengths, which is all that is asked of them
// here: their columns are not read.
#[tactic(auto, unfolding(crate::specs::Checks::checks))]
pub fn check<'a>(
    u: &'a [u8],
    v: &'a [u8],
    schedule: &'a [u8],
    w: u32,
    first: Lengths,
    second: Lengths,
) -> Result<Course<'a>, Refusal>
    ensures { result ≡ checked u.entry v.entry schedule.entry (checks u.now v.now schedule.now w first second) }
{
    if !(LEAST_WIDTH..=GREATEST_WIDTH).contains(&w) {
        return Err(Refusal::Call(CallFault::Width));
    }
    if !first.agree(second) {
        return Err(Refusal::Call(CallFault::Columns));
    }
    check_lists(u, v, schedule)
}
