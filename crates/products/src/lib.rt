// A step: the reduced diagram of a matrix times a gate, from one store into another.
#![tactic(auto)]

ghost use Rattle.turns.specs.Work.{SameWork};
ghost use Rattle.products.specs.Step.{Task, Fresh, Multiplied};

use transitions::{Mode, State};
use turns::{OutsideWidth, Planned, Work};

// The walk of a planned step from the source's root, into empty tables: the product's root, which the tables then hold, unless the work
// says that there was no room; or that a number left the width.
pub fn multiply(
    work: &mut Work<'_, '_, '_>,
    planned: &Planned<'_>,
    root: u32,
) -> Result<u32, OutsideWidth>
    requires task { Task planned.now root }
    requires fresh { Fresh planned.now work.old }
    ensures same { SameWork work.old work.new }
    ensures multiplied { Multiplied planned.now root work.old work.new result }
{
    let state = State {
        x: root,
        y: root,
        mode: Mode::Waiting(0),
    };
    walks::row(work, planned, tables::place(planned.plan, state))
}
