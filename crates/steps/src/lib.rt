// A step along a schedule: the reduced diagram in one store times a gate, divided by √2 while it goes, into the other store, with tables
// that follow its size.
#![tactic(auto)]

ghost use Rattle.stores.specs.Columns.{columns_of, viewed, SameColumns};
ghost use Rattle.uniques.specs.UniqueTable.{SameNodeTable, SameValueTable};
ghost use Rattle.plans.specs.Layout.{SameScratch};
ghost use Rattle.products.specs.Step.{Fresh};
ghost use Rattle.products.specs.Step as product;
ghost use Rattle.steps.specs.Stepping.{Task, Left};
ghost use Rattle.steps.specs.Answering.{begun, Walked};

use miters::StepFault;
use plans::{Scratch, Step};
use stores::{Store, Used, View};
use turns::{Planned, Work};
use uniques::{NodeTable, ValueTable};

// The planned walk, into empty tables: whether it built the product, and if not, why. It is a function of its own, since
// within take_step the check refuses it: the tables that the work refers to are made there of the target's columns, at other lifetimes than
// the call takes.
fn walk<'w, 'n, 'v>(
    nodes: &'w mut NodeTable<'n>,
    values: &'w mut ValueTable<'v>,
    memo: &'w mut [u32],
    planned: &Planned<'_>,
    root: u32,
) -> Result<(), StepFault>
    requires task { product.Task planned.now root }
    requires fresh { Fresh planned.now (begun nodes values memo) }
    ensures same_nodes { SameNodeTable nodes.old nodes.new }
    ensures same_values { SameValueTable values.old values.new }
    ensures walked { Walked planned.now root nodes.old values.old nodes.new values.new result }
{
    let mut work = Work {
        nodes,
        values,
        memo,
        full: false,
    };
    products::multiply(&mut work, planned, root).map_err(|_| StepFault::OutsideWidth)?;
    if work.full {
        return Err(StepFault::NoRoom);
    }
    Ok(())
}

// What is left of a product: how much of its store holds the diagram, and its exponent.
#[derive(Clone, Copy)]
pub struct Taken {
    pub used: Used,
    pub exponent: u32,
}

// The diagram in the source times a gate is a product over this exponent. Divided by √2 while it goes, it is put into the target; or the
// answer says why there is none.
pub fn take_step(
    step: Step,
    power: u32,
    source: &View<'_>,
    target: &mut Store<'_>,
    scratch: &mut Scratch<'_>,
) -> Result<Taken, StepFault>
    requires { Task step (viewed source.now) (columns_of target.old) scratch.old }
    ensures left { Left step (viewed source.now) (columns_of target.old) scratch.old power (columns_of target.new) result }
    ensures same_columns { SameColumns target.old target.new }
    ensures same_scratch { SameScratch scratch.old scratch.new }
{
    let plan = plans::plan_step(step, &source.values);
    plans::clear_tables(&plan, target.level.len(), target.a.len(), scratch);
    let mut nodes = NodeTable {
        level: target.level,
        low: target.low,
        high: target.high,
        index: scratch.node_index,
        heads: plan.node_heads,
        used: 0,
    };
    let mut values = ValueTable {
        terminals: scratch.terminals,
        index: scratch.value_index,
        heads: plan.value_heads,
        used: 0,
    };
    let planned = Planned {
        plan: &plan,
        source: *source,
    };
    let root = step.used.root();
    walk(&mut nodes, &mut values, scratch.memo, &planned, root)?;
    let used = Used {
        nodes: nodes.used,
        values: values.used,
    };
    let product = &mut scratch.terminals[..used.values as usize];
    let exponent = lowerings::lower(product, power);
    target.publish(product);
    Ok(Taken { used, exponent })
}
