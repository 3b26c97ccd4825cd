// The verdict program's answer on the bytes that it has read: the split into two lists, and the line of their report.
#![tactic(auto)]

ghost use Rattle.std.specs.Prelude.{◌≡◌, ◌≤◌, length};
ghost use Rattle.reports.specs.Line.{line, over_front};
ghost use Rattle.inputs.specs.Input.{bad_length, input_report, split_report};

use circuits::{Fault, Reader};
use miters::{Part, Refusal, Report};

// A refusal of the length of list 1, which is at its first byte wherever it was met.
fn bad_length(fault: Fault) -> Refusal
    ensures { result ≡ bad_length fault }
{
    Refusal::Byte {
        list: Part::Length,
        why: circuits::Refusal { fault, offset: 0 },
    }
}

// An input's two lists: list 1 after its length, and list 2 to the end.
fn split(bytes: &[u8]) -> Result<(&[u8], &[u8]), Refusal>
    ensures { input_report bytes.now ≡ split_report result }
{
    let mut reader = Reader::new(bytes, 0);
    let length = reader.number().map_err(|why| bad_length(why.fault))? as usize;
    bytes[reader.at..]
        .split_at_checked(length)
        .ok_or(bad_length(Fault::EndsEarly))
}

// The report on an input.
pub fn judge_input(bytes: &[u8]) -> Report
    ensures { result ≡ input_report bytes.now }
{
    match split(bytes) {
        Ok((first, second)) => pairs::judge_lists(first, second),
        Err(why) => Report::from(why),
    }
}

// The line that answers an input, written to the front of the buffer, and its length.
pub fn answer_line(bytes: &[u8], buffer: &mut [u8; reports::ROOM]) -> usize
    ensures length { result ≡ length (line (input_report bytes.now)) }
    ensures short { result ≤ 224 }
    ensures contents { buffer.new ≡ over_front (line (input_report bytes.now)) buffer.old }
{
    reports::write_line(judge_input(bytes), buffer)
}
