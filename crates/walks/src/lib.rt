// The walk of a step: row and column walkers that call each other, the levels left falling, until a value is reached. They are two
// functions, since the paper names that form for this place.
#![tactic(auto)]

ghost use Rattle.std.specs.Prelude.{◌≡◌};
ghost use Rattle.transitions.specs.Plan.{plan_of};
ghost use Rattle.transitions.specs.Next.{next_state};
ghost use Rattle.tables.specs.Table.{AtSlot, recalled};
ghost use Rattle.turns.specs.Work.{source_in, SameWork};
ghost use Rattle.turns.specs.Turn.{Ready, Walked};
ghost use Rattle.walks.specs.Walk.{Begun, Descending};

use std::ops::ControlFlow;
use tables::Placed;
use transitions::{Plan, State};
use turns::{OutsideWidth, Planned, Work};
use uniques::Node;

// A walker before its question: its answer, where nothing is left to ask; else the level that it asks at.
#[inline]
fn begin(
    work: &mut Work<'_, '_, '_>,
    planned: &Planned<'_>,
    placed: Placed,
) -> ControlFlow<Result<u32, OutsideWidth>, u32>
    requires { Ready planned.now work.old placed }
    ensures same { SameWork work.old work.new }
    ensures begun { Begun planned.now work.old placed work.new result }
{
    if leaves::is_leaf(placed.state) {
        return ControlFlow::Break(work.settle(planned, placed));
    }
    ControlFlow::Continue(planned.plan.asked(&planned.source.nodes, placed.state))
}

// The diagram of a state's product, added to the destination. A value ends the walk. A state that asks for a row bit: both its
// cofactors go to `column`, low before high, then the node over them. One that asks for a column bit goes to `column` itself.
#[cycle(column_row)]
pub fn row(
    work: &mut Work<'_, '_, '_>,
    planned: &Planned<'_>,
    placed: Placed,
) -> Result<u32, OutsideWidth>
    requires { Ready planned.now work.old placed }
    ensures same { SameWork work.old work.new }
    ensures walked { Walked planned.now work.old placed.state result work.new }
{
    match begin(work, planned, placed) {
        ControlFlow::Break(answer) => answer,
        ControlFlow::Continue(level) => {
            if level % 2 == 1 {
                return column(work, planned, placed);
            }
            let low = below(work, planned, level, false, placed.state)?;
            let high = below(work, planned, level, true, placed.state)?;
            let node = Node { level, low, high };
            Ok(work.finish(planned, placed, node))
        }
    }
}

// The same with rows and columns in exchanged parts: the question about a column bit hands over to the one about the row bit.
#[cycle(column_row)]
fn column(
    work: &mut Work<'_, '_, '_>,
    planned: &Planned<'_>,
    placed: Placed,
) -> Result<u32, OutsideWidth>
    requires { Ready planned.now work.old placed }
    ensures same { SameWork work.old work.new }
    ensures walked { Walked planned.now work.old placed.state result work.new }
{
    match begin(work, planned, placed) {
        ControlFlow::Break(answer) => answer,
        ControlFlow::Continue(level) => {
            if level % 2 == 0 {
                return row(work, planned, placed);
            }
            let low = below(work, planned, level, false, placed.state)?;
            let high = below(work, planned, level, true, placed.state)?;
            let node = Node { level, low, high };
            Ok(work.finish(planned, placed, node))
        }
    }
}

// What the computed table has of a state. It stands apart, since the proof did not close without it: where `below` lends the table itself, it
// is not told that the table comes back as it was.
#[inline]
fn known(work: &Work<'_, '_, '_>, plan: &Plan, placed: Placed) -> Option<u32>
    requires { AtSlot (plan_of plan.now) work.now.memo.now placed }
    ensures { result ≡ recalled (plan_of plan.now) work.now.memo.now placed.state }
{
    tables::recall(work.memo, plan, placed)
}

// A cofactor of a state that asks at a level: what the computed table has of it, or the other walker's answer.
#[cycle(column_row)]
#[inline]
fn below(
    work: &mut Work<'_, '_, '_>,
    planned: &Planned<'_>,
    level: u32,
    bit: bool,
    state: State,
) -> Result<u32, OutsideWidth>
    requires { Descending planned.now work.old level state }
    ensures same { SameWork work.old work.new }
    ensures walked { Walked planned.now work.old (next_state (plan_of planned.now.plan.now) (source_in planned.now) level bit state) result work.new }
{
    let next = planned.plan.next(&planned.source.nodes, level, bit, state);
    let placed = tables::place(planned.plan, next);
    match known(work, planned.plan, placed) {
        Some(answer) => Ok(answer),
        None => {
            if level % 2 == 0 {
                column(work, planned, placed)
            } else {
                row(work, planned, placed)
            }
        }
    }
}
