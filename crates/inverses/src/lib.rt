// The inverse of a gate list, written into a lent buffer: the gates in opposite order, each by its inverse code. Any bytes are safe input.
#![tactic(auto)]

ghost use Rattle.std.specs.Prelude.{◌≡◌, ◌+◌, ◌≤◌, length};
ghost use Rattle.std.proofs.lemmas.List.Edits.{sets};
ghost use Rattle.circuits.specs.Refusals.{base_limits};
ghost use Rattle.circuits.specs.Reading.{decoded};
ghost use Rattle.lists.specs.Answers.{Listed};
ghost use Rattle.encodings.specs.Encoding.{gates_bytes};
ghost use Rattle.encodings.specs.Writing.{Wrote};
ghost use Rattle.inverses.specs.Inverse.{undone, inverted};
ghost use Rattle.inverses.specs.Writing.{Small, data_bytes, undo_bytes, gates_said};

use circuits::{Gate, Reader};
use encodings::Writer;
use gates::Operands;
use lists::List;
use miters::{CallFault, Part, Refusal};

// What follows a gate's code.
fn write_operands(writer: &mut Writer<'_>, operands: Operands, gate: Gate)
    requires small { Small gate }
    requires in_bounds { writer.old.at + length (data_bytes operands gate) ≤ length writer.old.buffer.now }
    ensures { Wrote (data_bytes operands gate) writer.old writer.new }
{
    match operands {
        Operands::Qubit => writer.number(gate.target),
        Operands::Controlled | Operands::Masked { .. } => {
            writer.number(gate.control);
            writer.number(gate.target);
        }
        Operands::Exchanging { .. } => {
            writer.number(gate.control);
            writer.number(gate.target);
            writer.number(gate.second);
        }
    }
}

// The inverse of a gate.
fn write_gate(writer: &mut Writer<'_>, gate: Gate)
    requires small { Small gate }
    requires in_bounds { writer.old.at + length (undo_bytes gate) ≤ length writer.old.buffer.now }
    ensures { Wrote (undo_bytes gate) writer.old writer.new }
{
    let rule = gate.code.rule();
    writer.number(u32::from(rule.inverse));
    write_operands(writer, rule.operands, gate);
}

// The inverses of a list's gates, from the place of its first gate on: the gate that stands so far before the list's end is undone so far
// after that place.
fn write_gates(list: &[u8], head: List, buffer: &mut [u8])
    requires listed { Listed (decoded base_limits list.now) head.qubits head.gates head.first }
    requires in_bounds { length list.now ≤ length buffer.old }
    ensures { buffer.new ≡ sets buffer.old head.first (gates_bytes (undone (gates_said list.now))) }
{
    let mut reader = Reader::new(list, head.first);
    for _ in 0..head.gates {
        let gate = reader.gate(head.qubits).unwrap();
        let at = head.first + (list.len() - reader.at);
        write_gate(&mut Writer { buffer, at }, gate);
    }
}

// The inverse of a valid list, at the front of the buffer. It is as long as the list; that many bytes are written.
pub fn write_inverse(list: &[u8], buffer: &mut [u8]) -> Result<usize, Refusal>
    ensures answer { result ≡ (inverted list.now buffer.old).answer }
    ensures contents { buffer.new ≡ (inverted list.now buffer.old).buffer }
{
    let read = lists::check_list(list, circuits::base_limits());
    let head = read.map_err(|why| Refusal::Byte {
        list: Part::First,
        why,
    })?;
    if buffer.len() < list.len() {
        return Err(Refusal::Call(CallFault::ShortBuffer));
    }
    let mut writer = Writer { buffer, at: 0 };
    writer.number(head.qubits);
    writer.number(head.gates);
    write_gates(list, head, writer.buffer);
    Ok(list.len())
}
