// A run along a schedule: from the identity, step by step, the two stores taking turns.
#![tactic(auto)]

ghost use Rattle.stores.specs.Columns.{columns_of, SameColumns};
ghost use Rattle.plans.specs.Layout.{SameScratch};
ghost use Rattle.steps.specs.Stepping as stepping;
ghost use Rattle.runs.specs.Running.{Task, Left};
ghost use Rattle.runs.specs.Inside.{current, Room, Begun, Started, Followed};

use choices::Course;
use miters::{Refusal, StepFault};
use plans::{Scratch, Sizes, Step};
use steps::Taken;
use stores::{Store, Used};

// The nodes and values of the identity: three nodes a qubit, one and zero.
const NODES_A_QUBIT: u32 = 3;

const IDENTITY_VALUES: u32 = 2;

// A run that took every step: how many they are, the exponent, and how much of the first store holds the miter.
#[derive(Clone, Copy)]
pub struct Finish {
    pub steps: u32,
    pub exponent: u32,
    pub used: Used,
}

// ---- the stores, which take turns: both ways round are one call with the two exchanged. The language refuses to choose the source and the
// target first, in one pair: the two would have to be lent for one lifetime, and then a call could not take two stores of different ones.

// The identity goes into the store that is current while all steps are left, so that the last step ends in the first store.
fn begin(left: usize, n: u32, first: &mut Store<'_>, second: &mut Store<'_>)
    requires { Room n (columns_of first.old) (columns_of second.old) }
    ensures begun { Begun left n (columns_of first.old) (columns_of second.old) (columns_of first.new) (columns_of second.new) }
    ensures same_first { SameColumns first.old first.new }
    ensures same_second { SameColumns second.old second.new }
{
    if left % 2 == 0 {
        identities::identity(n, first);
    } else {
        identities::identity(n, second);
    }
}

// One step, with so many left: from the store that is current into the other one; its product is over this exponent.
fn advance(
    left: usize,
    step: Step,
    power: u32,
    first: &mut Store<'_>,
    second: &mut Store<'_>,
    scratch: &mut Scratch<'_>,
) -> Result<Taken, StepFault>
    requires { stepping.Task step (current left (columns_of first.old) (columns_of second.old))
        (current left (columns_of second.old) (columns_of first.old)) scratch.old }
    ensures left { stepping.Left step (current left (columns_of first.old) (columns_of second.old))
        (current left (columns_of second.old) (columns_of first.old)) scratch.old power
        (current left (columns_of second.new) (columns_of first.new)) result }
    ensures same_first { SameColumns first.old first.new }
    ensures same_second { SameColumns second.old second.new }
    ensures same_scratch { SameScratch scratch.old scratch.new }
{
    if left % 2 == 0 {
        steps::take_step(step, power, &first.view(), second, scratch)
    } else {
        steps::take_step(step, power, &second.view(), first, scratch)
    }
}

// The steps of the schedule, from the identity on.
fn follow(
    course: &Course<'_>,
    sizes: Sizes,
    first: &mut Store<'_>,
    second: &mut Store<'_>,
    scratch: &mut Scratch<'_>,
) -> Result<Finish, Refusal>
    requires { Started course.now sizes (columns_of first.old) (columns_of second.old) scratch.old }
    ensures followed { Followed course.now sizes (columns_of first.old) (columns_of second.old) scratch.old (columns_of first.new) result }
    ensures same_first { SameColumns first.old first.new }
    ensures same_second { SameColumns second.old second.new }
    ensures same_scratch { SameScratch scratch.old scratch.new }
{
    let n = course.n;
    let steps = course.schedule.len();
    let mut lists = course.lists;
    let mut taken = Taken {
        used: Used {
            nodes: NODES_A_QUBIT * n,
            values: IDENTITY_VALUES,
        },
        exponent: 0,
    };
    for (i, byte) in course.schedule.iter().enumerate() {
        let action = choices::choose(&mut lists, *byte, n);
        let step = Step {
            action,
            n,
            sizes,
            used: taken.used,
        };
        let power = taken.exponent + choices::halves(action);
        let finished = i as u32;
        taken = advance(steps - i, step, power, first, second, scratch).map_err(|fault| {
            Refusal::Step {
                fault,
                steps: finished,
            }
        })?;
    }
    Ok(Finish {
        steps: steps as u32,
        exponent: taken.exponent,
        used: taken.used,
    })
}

// The run: the miter's diagram in the first store, or the refusal of the identity or of a step.
pub fn run(
    course: &Course<'_>,
    sizes: Sizes,
    first: &mut Store<'_>,
    second: &mut Store<'_>,
    scratch: &mut Scratch<'_>,
) -> Result<Finish, Refusal>
    requires { Task course.now sizes (columns_of first.old) (columns_of second.old) scratch.old }
    ensures left { Left course.now sizes (columns_of first.old) (columns_of second.old) scratch.old (columns_of first.new) result }
    ensures same_first { SameColumns first.old first.new }
    ensures same_second { SameColumns second.old second.new }
    ensures same_scratch { SameScratch scratch.old scratch.new }
{
    let n = course.n;
    if first.level.len() < (NODES_A_QUBIT * n) as usize
        || first.a.len() < IDENTITY_VALUES as usize
    {
        return Err(Refusal::Step {
            fault: StepFault::NoRoom,
            steps: 0,
        });
    }
    begin(course.schedule.len(), n, first, second);
    follow(course, sizes, first, second, scratch)
}
