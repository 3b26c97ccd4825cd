// The computed table of a step's walk: what was found for a state, kept for the next time that the walk comes to it. It is numbers in one
// lent slice, in three regions and then entries of four, since the memory is fixed and each step divides it anew.
#![tactic(auto)]

ghost use Rattle.std.specs.Prelude.{◌≡◌, ◌≤◌};
ghost use Rattle.transitions.specs.Plan.{plan_of};
ghost use Rattle.tables.specs.Table.{placed, recalled, noted, TableSizes, AtSlot, table_size};

use transitions::{Mode, Plan, State};

// A state, and where the table has it: a number of one of three regions, or an entry of four. One slice holds both, so where a slot is says
// which of the two it is, and no enum says it again.
#[derive(Clone, Copy)]
pub struct Placed {
    pub state: State,
    pub at: usize,
}

// A state with its slot. Modes are compared by number, since the table keeps a mode by its number: the promise names the slot of any mode,
// also of one whose number is another's, as Turning(16)'s is Waiting(0)'s.
#[inline]
#[tactic(auto, using(crate::proofs::Slots::bucket_limit), unfolding(crate::specs::Table::slot_of))]
pub fn place(plan: &Plan, state: State) -> Placed
    requires { TableSizes (plan_of plan.now) }
    ensures { result ≡ placed (plan_of plan.now) state }
{
    let State { x, y, mode } = state;
    let span = plan.span as usize;
    let number = u64::from(mode);
    let at = if number == u64::from(plan.phases.zero) {
        x as usize
    } else if number == u64::from(plan.phases.one) {
        span + x as usize
    } else if number == u64::from(Mode::Waiting(0)) {
        2 * span + x as usize
    } else {
        3 * span + 4 * uniques::spread(x, y, number, plan.slots)
    };
    Placed { state, at }
}

// What is known of a state: what is kept for it is 0, or the answer and one more.
#[inline]
#[tactic(auto, using(crate::proofs::Slots::at_room), unfolding(crate::specs::Table::recalled))]
pub fn recall(memo: &[u32], plan: &Plan, placed: Placed) -> Option<u32>
    requires { AtSlot (plan_of plan.now) memo.now placed }
    ensures { result ≡ recalled (plan_of plan.now) memo.now placed.state }
{
    let Placed { state, at } = placed;
    if at < 3 * plan.span as usize {
        return memo[at].checked_sub(1);
    }
    let same_mode = u64::from(memo[at + 2]) == u64::from(state.mode) + 1;
    if same_mode && memo[at] == state.x && memo[at + 1] == state.y {
        return memo[at + 3].checked_sub(1);
    }
    None
}

// Keep what was found for a state. The last answer has no number one more, and is not kept. An entry's numbers are written one by one: by
// copy_from_slice, which was proved too, machine code puts the four on the stack and looks for an overlap before it copies them.
#[inline]
#[tactic(auto, using(crate::proofs::Slots::at_room), unfolding(crate::specs::Table::noted))]
pub fn note(memo: &mut [u32], plan: &Plan, placed: Placed, answer: u32)
    requires { AtSlot (plan_of plan.now) memo.old placed }
    ensures { memo.new ≡ noted (plan_of plan.now) memo.old placed.state answer }
{
    let Placed { state, at } = placed;
    let kept = answer.checked_add(1).unwrap_or(0);
    if at < 3 * plan.span as usize {
        memo[at] = kept;
        return;
    }
    memo[at] = state.x;
    memo[at + 1] = state.y;
    memo[at + 2] = (u64::from(state.mode) + 1) as u32;
    memo[at + 3] = kept;
}

// The size of a table for so many nodes, or values: the least, doubled until it suffices, but at most the most.
pub fn table_size(count: u32, least: u32, most: u32) -> u32
    requires { 1 ≤ least }
    ensures { result ≡ table_size count least most }
{
    let (wanted, least) = (2 * u64::from(count), u64::from(least));
    let size = least * wanted.div_ceil(least).next_power_of_two();
    size.min(u64::from(most)) as u32
}
