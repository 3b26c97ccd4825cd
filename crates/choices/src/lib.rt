// The gate of a step: the next of the list that the schedule names, inverted, for the right, or as it stands there, for the left.
#![tactic(auto)]

ghost use Rattle.std.specs.Prelude.{◌≡◌};
ghost use Rattle.gates.specs.Rule.{does_mix};
ghost use Rattle.plans.specs.Prepare.{as_number};
ghost use Rattle.choices.specs.Choosing.{Sided, Power, Named, Acting, Read, Chosen};

use circuits::{Gate, Reader};
use gates::{Act, Code, Operands, Rule};
use plans::{Action, Side};

// The most qubits, and how many masks of them there are.
const QUBITS: u32 = 16;

const MASKS: u32 = 65536;

// The two lists, each where its gates are read next.
#[derive(Clone, Copy)]
pub struct Lists<'a> {
    pub first: Reader<'a>,
    pub second: Reader<'a>,
}

// The gate of a step where none can be read: `choose` takes any lists, asks nothing of its callers and cannot fail, so it needs some answer
// there. It is X on qubit 0.
const STAND_IN: Gate = Gate {
    code: Code::X,
    control: 0,
    target: 0,
    second: 0,
};

// What a run follows: two lists that passed the checks, each where its gates begin, the schedule along which they are taken, and how many
// qubits they are on.
#[derive(Clone, Copy)]
pub struct Course<'a> {
    pub lists: Lists<'a>,
    pub schedule: &'a [u8],
    pub n: u32,
}

// The data of a gate's inverse, put on the right, or of the gate, put on the left.
fn rule_on(side: Side, code: Code) -> Rule
    ensures { Sided side code result }
{
    match side {
        Side::Right => code.rule().inverse.rule(),
        Side::Left => code.rule(),
    }
}

// 2 to the power q, for a qubit; 0 past the qubits.
fn power(q: u32) -> u32
    ensures { Power q result }
{
    if q < QUBITS { 1 << q } else { 0 }
}

// The mask of the qubits that a gate names, by its control or mask and its targets.
fn named(operands: Operands, gate: Gate) -> u32
    ensures { Named operands gate result }
{
    let own = power(gate.target);
    match operands {
        Operands::Qubit => own,
        Operands::Controlled => power(gate.control) + own,
        Operands::Masked { .. } => gate.control % MASKS + own,
        Operands::Exchanging { .. } => gate.control % MASKS + own + power(gate.second),
    }
}

// A gate's qubits and its data for a side.
fn act(rule: Rule, side: Side, gate: Gate) -> Action
    ensures { Acting rule side gate result }
{
    Action {
        rule,
        side,
        named: named(rule.operands, gate),
        low: u32::min(gate.target, gate.second),
        high: u32::max(gate.target, gate.second),
    }
}

// The gate that is read next in a list on n qubits, inverted, for the right, or as it is, for the left; the stand-in where none can be read.
fn take(reader: &mut Reader<'_>, n: u32, side: Side) -> Action
    ensures { Read reader.old n side reader.new result }
{
    let gate = reader.gate(n).unwrap_or(STAND_IN);
    act(rule_on(side, gate.code), side, gate)
}

// The gate of a step: the next of U for the left, or the next of V, inverted, for the right. The step stays a number: it is a byte of the
// schedule, which the C interface lends.
pub fn choose(lists: &mut Lists<'_>, step: u8, n: u32) -> Action
    ensures { Chosen lists.old lists.new step n result }
{
    if step == 0 {
        take(&mut lists.first, n, Side::Left)
    } else {
        take(&mut lists.second, n, Side::Right)
    }
}

// What a step adds to the exponent, before its product is divided.
pub fn halves(action: Action) -> u32
    ensures { result ≡ as_number (does_mix action.rule.act) }
{
    u32::from(action.rule.act == Act::Mixes)
}
