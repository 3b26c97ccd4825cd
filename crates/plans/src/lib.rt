// The plan of a step and its tables, before its walk: what the gate does and at which levels, the sizes of the tables, the tables cleared.
#![tactic(auto)]

ghost use Rattle.std.specs.Prelude.{◌≡◌, ◌<◌, ◌≤◌, ◌%◌, ◌^◌};
ghost use Rattle.std.specs.Int.Count.{ones};
ghost use Rattle.stores.specs.Columns.{value_columns, entries_of, zero_ref, ValueColumns};
ghost use Rattle.plans.specs.Prepare.{side_number, side_phases, stage_levels};
ghost use Rattle.plans.specs.Layout.{counted, planned, Planning, Roomy, Cleared, SameScratch};

use algebra::Entry;
use gates::{Act, Phases, Rule};
use stores::{Used, Values};
use transitions::Plan;

// The sizes of the smallest tables.
const LEAST_NODE_HEADS: u32 = 64;

const LEAST_VALUE_HEADS: u32 = 16;

const LEAST_SLOTS: u32 = 64;

// The side of a matrix that a gate is put on, with its number: a gate on the right asks at odd levels, one on the left at even ones.
#[derive(Clone, Copy, PartialEq, Eq, Debug)]
pub enum Side {
    Left = 0,
    Right = 1,
}

// A gate put on a side, by its data, the mask of the qubits that it names, and its targets, the lower one first; a gate with one target has
// it twice.
#[derive(Clone, Copy)]
pub struct Action {
    pub rule: Rule,
    pub side: Side,
    pub named: u32,
    pub low: u32,
    pub high: u32,
}

// The width, and the most heads of a unique table and slots of the computed table that the scratch has room for.
#[derive(Clone, Copy)]
pub struct Sizes {
    pub width: u32,
    pub heads: u32,
    pub slots: u32,
}

// A step before it is planned: a gate put on a side of a matrix on n qubits, the sizes that it may use, and what its source holds.
#[derive(Clone, Copy)]
pub struct Step {
    pub action: Action,
    pub n: u32,
    pub sizes: Sizes,
    pub used: Used,
}

// What is lent to a step beside the stores: slots for the product's terminals, the indexes of the two unique tables, the computed table.
#[derive(Drop)]
pub struct Scratch<'a> {
    pub terminals: &'a mut [Entry],
    pub node_index: &'a mut [u32],
    pub value_index: &'a mut [u32],
    pub memo: &'a mut [u32],
}

// ---- the plan of a gate

// The powers of w8 by the target's bit; a gate that mixes leaves x or −x where the other reference is the zero.
fn phases_of(rule: Rule, side: Side) -> Phases
    ensures { result ≡ side_phases (side_number side) rule }
{
    if rule.act == Act::Mixes {
        return Phases { zero: 0, one: 4 };
    }
    match side {
        Side::Right => rule.right,
        Side::Left => rule.left,
    }
}

// The levels of the qubits that a mask names, lowest first.
fn stages_of(named: u32, side: Side) -> [u32; 16]
    requires { named < 65536 }
    ensures { result ≡ stage_levels (side_number side) named }
{
    let mut stages = [0; 16];
    for (k, q) in (0..16).filter(|&q| (named >> q) % 2 == 1).enumerate() {
        stages[k] = 2 * q + side as u32;
    }
    stages
}

// How many qubits below q a mask names.
fn named_below(named: u32, q: u32) -> u32
    requires { q < 16 }
    ensures { result ≡ ones (named % 2 ^ q) }
{
    (named % (1 << q)).count_ones()
}

// ---- the plan of a step

// How many nodes the computed table is sized for: four for each where a gate mixes or swaps, since that makes pairs of references.
fn counted(rule: Rule, nodes: u32) -> u32
    requires { nodes ≤ 65536 }
    ensures { result ≡ counted rule nodes }
{
    match rule.act {
        Act::Mixes | Act::Swaps => 4 * nodes,
        Act::Keeps | Act::Flips => nodes,
    }
}

// The plan of a step from a source with these values: its gate, the source's zero and counts, the sizes of the tables, the width and the
// levels.
pub fn plan_step(step: Step, source: &Values<'_>) -> Plan
    requires { Planning step.action step.n step.used × ValueColumns (value_columns source.now) step.used.values }
    ensures { result ≡ planned step.action step.n step.sizes step.used (zero_ref (entries_of (value_columns source.now) step.used.values)) }
{
    let Step {
        action,
        n,
        sizes,
        used,
    } = step;
    Plan {
        stages: stages_of(action.named, action.side),
        stage_count: action.named.count_ones(),
        target: named_below(action.named, action.low),
        second: named_below(action.named, action.high),
        act: action.rule.act,
        phases: phases_of(action.rule, action.side),
        zero: source.zero(used.values),
        node_heads: tables::table_size(used.nodes, LEAST_NODE_HEADS, sizes.heads),
        value_heads: tables::table_size(used.values, LEAST_VALUE_HEADS, sizes.heads),
        slots: tables::table_size(counted(action.rule, used.nodes), LEAST_SLOTS, sizes.slots),
        width: sizes.width,
        levels: 2 * n,
        span: 2 * used.nodes.max(used.values),
        nodes: used.nodes,
        values: used.values,
    }
}

// Empty tables, as large as the plan says, for so many nodes and values.
pub fn clear_tables(plan: &Plan, nodes: usize, values: usize, scratch: &mut Scratch<'_>)
    requires { Roomy plan.now nodes values scratch.old }
    ensures cleared { Cleared plan.now nodes values scratch.old scratch.new }
    ensures same_scratch { SameScratch scratch.old scratch.new }
{
    let node_end = nodes + plan.node_heads as usize;
    let value_end = values + plan.value_heads as usize;
    let memo_end = 3 * plan.span as usize + 4 * plan.slots as usize;
    scratch.node_index[nodes..node_end].fill(0);
    scratch.value_index[values..value_end].fill(0);
    // 0 is written out: of a slice by `..memo_end` the check is not told what it becomes, and the proof did not close
    scratch.memo[0..memo_end].fill(0);
}
