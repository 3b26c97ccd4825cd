// Whole gate lists: their counts, their gates and their end, read through the reader. Any bytes are safe input.
#![tactic(auto)]

ghost use Rattle.std.specs.Prelude.{◌≡◌};
ghost use Rattle.circuits.specs.Reading.{count, body, decoded};
ghost use Rattle.circuits.specs.Answers.{Says};
ghost use Rattle.lists.specs.Answers.{list_answer};

use circuits::{Fault, Limits, Reader, Refusal};

// A list's counts and the offset of its first gate.
#[derive(Clone, Copy, PartialEq, Eq, Debug)]
pub struct List {
    pub qubits: u32,
    pub gates: u32,
    pub first: usize,
}

// A count, refused by its own fault where it is not from `low` to `high`.
#[tactic(auto, unfolding(circuits::specs::Reading::count))]
fn read_count(reader: &mut Reader<'_>, low: u32, high: u32, fault: Fault) -> Result<u32, Refusal>
    ensures { Says (λ v. v) (count low high fault reader.old.bytes.now reader.old.at) reader.old reader.new result }
{
    let offset = reader.at;
    let value = reader.number()?;
    circuits::kept((low..=high).contains(&value), fault, offset, value)
}

// The gates of a list, the first of which stands next, and its end.
fn check_gates(reader: &mut Reader<'_>, qubits: u32, gates: u32) -> Result<List, Refusal>
    ensures { result ≡ list_answer (body qubits gates reader.old.bytes.now reader.old.at) }
{
    let first = reader.at;
    for _ in 0..gates {
        reader.gate(qubits)?;
    }
    if reader.at < reader.bytes.len() {
        return Err(Refusal {
            fault: Fault::BytesRemain,
            offset: reader.at,
        });
    }
    Ok(List {
        qubits,
        gates,
        first,
    })
}

// Reads a list to its end, and returns its head or the first failure met.
#[tactic(auto, unfolding(circuits::specs::Reading::decoded, circuits::specs::Reading::list))]
pub fn check_list(bytes: &[u8], limits: Limits) -> Result<List, Refusal>
    ensures { result ≡ list_answer (decoded limits bytes.now) }
{
    let mut reader = Reader::new(bytes, 0);
    let qubits = read_count(&mut reader, 1, limits.qubits, Fault::QubitCount)?;
    let gates = read_count(&mut reader, 0, limits.gates, Fault::GateCount)?;
    check_gates(&mut reader, qubits, gates)
}
