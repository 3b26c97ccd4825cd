// A turn of a step's walk, before and after its calls: the value of a state with no question left, and the node over two answers.
#![tactic(auto)]

ghost use Rattle.std.specs.Prelude.{◌≡◌, is_none, ◌/◌};
ghost use Rattle.transitions.specs.Plan.{plan_of};
ghost use Rattle.transitions.specs.Source.{vals_of, HoldsSlot};
ghost use Rattle.tables.specs.Table.{AtSlot};
ghost use Rattle.turns.specs.Work.{SameWork};
ghost use Rattle.turns.specs.Turn.{answered, JoinReady, Finished, TerminalReady, Settled};

use stores::View;
use tables::Placed;
use transitions::Plan;
use uniques::{Node, NodeTable, ValueTable};

// What is answered where the product needs more room than there is: a number above every reference, and no Option, since the computed table
// keeps it beside references in one lent slice, where an Option would be made and unmade at each look. No test reads it: `full` says it.
pub const FULL: u32 = 4294967293;

// A number of the product lies outside the width.
#[derive(Clone, Copy, PartialEq, Eq, Debug)]
pub struct OutsideWidth;

// A planned step: what its walk reads.
#[derive(Clone, Copy)]
pub struct Planned<'a> {
    pub plan: &'a Plan,
    pub source: View<'a>,
}

// What a step's walk works on: the tables of the product's nodes and values, the computed table, and whether a node or terminal found no
// room. The walk goes on past that, since a number outside the width comes first. The two tables are lent and no part of it: of slices lent
// through a struct within a struct, the function that lends them is not told what they become.
#[derive(Drop)]
pub struct Work<'w, 'n, 'v> {
    pub nodes: &'w mut NodeTable<'n>,
    pub values: &'w mut ValueTable<'v>,
    pub memo: &'w mut [u32],
    pub full: bool,
}

// A unique table's answer as the walk's: without room it is FULL, and so from then on, when no table is asked.
#[inline]
fn answered(made: Option<u32>, full: &mut bool) -> u32
    ensures { (result ≡ answered made) × (full.new ≡ is_none made) }
{
    *full = made.is_none();
    made.unwrap_or(FULL)
}

impl Work<'_, '_, '_> {
    // After the two calls: the node over their answers, if the walk still builds, kept in the computed table.
    #[inline]
    pub fn finish(&mut self, planned: &Planned<'_>, placed: Placed, node: Node) -> u32
        requires join_ready { JoinReady self.old }
        requires at_slot { AtSlot (plan_of planned.now.plan.now) self.old.memo.now placed }
        ensures same { SameWork self.old self.new }
        ensures finished { Finished self.old self.new (plan_of planned.now.plan.now) node.level node.low node.high placed.state result }
    {
        let made = if self.full {
            None
        } else {
            self.nodes.make(node)
        };
        let answer = answered(made, &mut self.full);
        tables::note(self.memo, planned.plan, placed, answer);
        answer
    }

    // A state with no question left: its value, if it lies within the width, put if the walk still builds, and kept in the computed table.
    #[inline]
    pub fn settle(&mut self, planned: &Planned<'_>, placed: Placed) -> Result<u32, OutsideWidth>
        requires terminal_ready { TerminalReady self.old }
        requires at_slot { AtSlot (plan_of planned.now.plan.now) self.old.memo.now placed }
        requires holds_slot { HoldsSlot (vals_of planned.now.source.values) (placed.state.x / 2)
            × HoldsSlot (vals_of planned.now.source.values) (placed.state.y / 2) }
        ensures same { SameWork self.old self.new }
        ensures settled { Settled self.old self.new planned.now placed.state result }
    {
        let found = leaves::leaf(&planned.source.values, placed.state, planned.plan.width);
        let entry = found.ok_or(OutsideWidth)?;
        let made = if self.full {
            None
        } else {
            self.values.make(entry)
        };
        let answer = answered(made, &mut self.full);
        tables::note(self.memo, planned.plan, placed, answer);
        Ok(answer)
    }
}
