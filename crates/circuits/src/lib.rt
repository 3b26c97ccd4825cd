// Gate lists as bytes: numbers and gates, read one after another. Any bytes and any offset are safe input.
#![tactic(auto)]

ghost use Rattle.std.specs.Prelude.{◌≡◌, ◌^◌, ltb, OnErr};
ghost use Rattle.gates.specs.Gate.{in_mask};
ghost use Rattle.circuits.specs.Refusals.{base_limits};
ghost use Rattle.circuits.specs.Reading.{byte, number, qubit, target_qubit, mask_below, mask, free_qubit, second_qubit, gate};
ghost use Rattle.circuits.specs.Answers.{reader_at, kept, Says, gate_data, data_of, controlled, masked, exchanging, operands_data};

use gates::{Code, Operands};

// ---- answers

// Why a list is refused, by its number in the paper's table.
#[derive(Clone, Copy, PartialEq, Eq, Debug)]
pub enum Fault {
    EndsEarly = 3,
    NotShortest = 4,
    QubitCount = 5,
    GateCount = 6,
    UnknownCode = 7,
    NoSuchQubit = 8,
    ControlIsTarget = 9,
    BytesRemain = 10,
    TooFewControls = 17,
}

// A fault and the offset that it returns.
#[derive(Clone, Copy, PartialEq, Eq, Debug)]
pub struct Refusal {
    pub fault: Fault,
    pub offset: usize,
}

// A gate of a list. The control is a mask for Toffoli and Fredkin, and 0 where the gate names one qubit; the second target is the target again
// where there is one only. One shape for every kind: a step's plan takes the targets the same way for each kind (choices::act), and who
// has to know what the control is, or whether the second target is another, asks the code's rule (choices::named, inverses::write_operands).
#[derive(Clone, Copy, PartialEq, Eq, Debug)]
pub struct Gate {
    pub code: Code,
    pub control: u32,
    pub target: u32,
    pub second: u32,
}

// A gate of one target.
fn with_one_target(code: Code, control: u32, target: u32) -> Gate
    ensures { result ≡ data_of code control target target }
{
    Gate {
        code,
        control,
        target,
        second: target,
    }
}

// ---- limits

// The most qubits and gates that a list may have.
#[derive(Clone, Copy)]
pub struct Limits {
    pub qubits: u32,
    pub gates: u32,
}

// Those of the base. A smaller machine has its own.
pub fn base_limits() -> Limits
    ensures { result ≡ base_limits }
{
    Limits {
        qubits: 16,
        gates: 4096,
    }
}

// ---- tests

// A number that starts at `start`, if it passes its test; else the test's refusal.
pub fn kept(passes: bool, fault: Fault, start: usize, value: u32) -> Result<u32, Refusal>
    ensures { result ≡ kept passes fault start value }
{
    passes.then_some(value).ok_or(Refusal {
        fault,
        offset: start,
    })
}

// Whether bit q of the mask is set.
fn in_mask(mask: u32, q: u32) -> bool
    ensures { result ≡ in_mask mask q }
{
    mask.checked_shr(q).unwrap_or(0) % 2 == 1
}

// Whether no bit of the mask is at or past n.
fn below_count(mask: u32, n: u32) -> bool
    ensures { result ≡ ltb mask (2 ^ n) }
{
    mask.checked_shr(n).unwrap_or(0) == 0
}

// ---- reading

// How many numbers a group of seven bits tells apart; a byte from there on says that another group follows.
pub const GROUP: u32 = 128;

// A list's bytes, borrowed, and the offset that is read next.
#[derive(Clone, Copy)]
pub struct Reader<'a> {
    pub bytes: &'a [u8],
    pub at: usize,
}

impl<'a> Reader<'a> {
    // The reader of a list that stands at `at`.
    pub fn new(bytes: &'a [u8], at: usize) -> Reader<'a>
        ensures { result ≡ reader_at bytes.entry at }
    {
        Reader { bytes, at }
    }

    // The next byte of the number that starts at `start`.
    fn byte(&mut self, start: usize) -> Result<u8, Refusal>
        ensures { Says (λ v. v) (byte start self.old.bytes.now self.old.at) self.old self.new result }
    {
        let byte = *self.bytes.get(self.at).ok_or(Refusal {
            fault: Fault::EndsEarly,
            offset: start,
        })?;
        self.at += 1;
        Ok(byte)
    }

    // The number that stands next. Where it is refused, the reader stands where it stood.
    pub fn number(&mut self) -> Result<u32, Refusal>
        ensures says { Says (λ v. v) (number self.old.bytes.now self.old.at) self.old self.new result }
        ensures stays { OnErr result (self.new ≡ self.old) }
    {
        let mut ahead = *self;
        let value = ahead.groups()?;
        *self = ahead;
        Ok(value)
    }

    // The groups of the number that stands next: one to three of seven bits, lowest first, in the shortest form. Where this and the other
    // private readers leave the reader after a refusal is open: `number` and `gate` lend them a copy, which takes its place if all was read.
    fn groups(&mut self) -> Result<u32, Refusal>
        ensures { Says (λ v. v) (number self.old.bytes.now self.old.at) self.old self.new result }
    {
        let start = self.at;
        let x = u32::from(self.byte(start)?);
        if x < GROUP {
            return Ok(x);
        }
        let y = u32::from(self.byte(start)?);
        if y < GROUP {
            return kept(y != 0, Fault::NotShortest, start, x % GROUP + y * GROUP);
        }
        let z = u32::from(self.byte(start)?);
        let value = x % GROUP + y % GROUP * GROUP + z * GROUP * GROUP;
        kept(z != 0 && z < GROUP, Fault::NotShortest, start, value)
    }

    // The readers of one number below (and lists::read_count) are alike: read, test, keep. A function over two closures, one to read and one to
    // test, would be no plainer: each would still say both, in one long line in place of three short ones. The qubit count is handed to each
    // and is no field, since a reader reads the head of a list too, before the count is known.

    // A qubit, below the list's qubit count.
    #[tactic(auto, unfolding(crate::specs::Reading::qubit))]
    fn qubit(&mut self, qubits: u32) -> Result<u32, Refusal>
        ensures { Says (λ v. v) (qubit qubits self.old.bytes.now self.old.at) self.old self.new result }
    {
        let start = self.at;
        let value = self.groups()?;
        kept(value < qubits, Fault::NoSuchQubit, start, value)
    }

    // The target of a gate with one control: another qubit.
    #[tactic(auto, unfolding(crate::specs::Reading::target_qubit))]
    fn target(&mut self, qubits: u32, control: u32) -> Result<u32, Refusal>
        ensures { Says (λ v. v) (target_qubit qubits control self.old.bytes.now self.old.at) self.old self.new result }
    {
        let start = self.at;
        let value = self.qubit(qubits)?;
        kept(value != control, Fault::ControlIsTarget, start, value)
    }

    // A mask of qubits below the list's qubit count.
    #[tactic(auto, unfolding(crate::specs::Reading::mask_below))]
    fn mask_below(&mut self, qubits: u32) -> Result<u32, Refusal>
        ensures { Says (λ v. v) (mask_below qubits self.old.bytes.now self.old.at) self.old self.new result }
    {
        let start = self.at;
        let value = self.groups()?;
        kept(below_count(value, qubits), Fault::NoSuchQubit, start, value)
    }

    // A mask of at least so many controls.
    #[tactic(auto, unfolding(crate::specs::Reading::mask))]
    fn mask(&mut self, qubits: u32, least: u32) -> Result<u32, Refusal>
        ensures { Says (λ v. v) (mask qubits least self.old.bytes.now self.old.at) self.old self.new result }
    {
        let start = self.at;
        let value = self.mask_below(qubits)?;
        kept(
            least <= value.count_ones(),
            Fault::TooFewControls,
            start,
            value,
        )
    }

    // A target that is not in the mask.
    #[tactic(auto, unfolding(crate::specs::Reading::free_qubit))]
    fn free(&mut self, qubits: u32, mask: u32) -> Result<u32, Refusal>
        ensures { Says (λ v. v) (free_qubit qubits mask self.old.bytes.now self.old.at) self.old self.new result }
    {
        let start = self.at;
        let value = self.qubit(qubits)?;
        kept(!in_mask(mask, value), Fault::ControlIsTarget, start, value)
    }

    // A second target, which is neither in the mask nor the first.
    #[tactic(auto, unfolding(crate::specs::Reading::second_qubit))]
    fn second(&mut self, qubits: u32, mask: u32, first: u32) -> Result<u32, Refusal>
        ensures { Says (λ v. v) (second_qubit qubits mask first self.old.bytes.now self.old.at) self.old self.new result }
    {
        let start = self.at;
        let value = self.free(qubits, mask)?;
        kept(value != first, Fault::ControlIsTarget, start, value)
    }

    // A gate of a control and a target, after its code.
    fn controlled(&mut self, qubits: u32, code: Code) -> Result<Gate, Refusal>
        ensures { Says (λ g. g) (controlled qubits code self.old.bytes.now self.old.at) self.old self.new result }
    {
        let control = self.qubit(qubits)?;
        let target = self.target(qubits, control)?;
        Ok(with_one_target(code, control, target))
    }

    // A gate of a mask of controls and one target, after its code.
    fn masked(&mut self, qubits: u32, code: Code, least: u32) -> Result<Gate, Refusal>
        ensures { Says (λ g. g) (masked qubits code least self.old.bytes.now self.old.at) self.old self.new result }
    {
        let control = self.mask(qubits, least)?;
        let target = self.free(qubits, control)?;
        Ok(with_one_target(code, control, target))
    }

    // A gate of a mask of controls and two targets, after its code.
    fn exchanging(&mut self, qubits: u32, code: Code, least: u32) -> Result<Gate, Refusal>
        ensures { Says (λ g. g) (exchanging qubits code least self.old.bytes.now self.old.at) self.old self.new result }
    {
        let control = self.mask(qubits, least)?;
        let first = self.free(qubits, control)?;
        let second = self.second(qubits, control, first)?;
        Ok(Gate {
            code,
            control,
            target: first,
            second,
        })
    }

    // What follows the code of a gate.
    fn operands(&mut self, qubits: u32, code: Code, operands: Operands) -> Result<Gate, Refusal>
        ensures { Says (λ g. g) (operands_data qubits code operands self.old.bytes.now self.old.at) self.old self.new result }
    {
        match operands {
            Operands::Qubit => {
                let target = self.qubit(qubits)?;
                Ok(with_one_target(code, 0, target))
            }
            Operands::Controlled => self.controlled(qubits, code),
            Operands::Masked { least } => self.masked(qubits, code, least),
            Operands::Exchanging { least } => self.exchanging(qubits, code, least),
        }
    }

    // The code of the gate that stands next, and what follows it.
    #[tactic(auto, unfolding(crate::specs::Reading::gate))]
    fn code_and_operands(&mut self, qubits: u32) -> Result<Gate, Refusal>
        ensures { Says gate_data (gate qubits self.old.bytes.now self.old.at) self.old self.new result }
    {
        let start = self.at;
        let number = self.groups()?;
        let code = Code::try_from(number).map_err(|_| Refusal {
            fault: Fault::UnknownCode,
            offset: start,
        })?;
        self.operands(qubits, code, code.rule().operands)
    }

    // The gate that stands next, in a list of so many qubits. Where it is refused, the reader stands where it stood.
    pub fn gate(&mut self, qubits: u32) -> Result<Gate, Refusal>
        ensures says { Says gate_data (gate qubits self.old.bytes.now self.old.at) self.old self.new result }
        ensures stays { OnErr result (self.new ≡ self.old) }
    {
        let mut ahead = *self;
        let gate = ahead.code_and_operands(qubits)?;
        *self = ahead;
        Ok(gate)
    }
}
