// What the C interface offers, which the crate capi_c exports: the judging call, the schedule maker and the writer of a list's
// inverse, on numbers and slices.
#![tactic(auto)]

ghost use Rattle.std.specs.Prelude.{◌≡◌};
ghost use Rattle.schedules.specs.Schedule.{made, filled};
ghost use Rattle.stores.specs.Columns.{columns};
ghost use Rattle.judges.specs.Answer.{answer};
ghost use Rattle.inverses.specs.Inverse.{inverted};
ghost use Rattle.capi.specs.Calls.{returning, judging, steps_or_refusal, answering, writing};

use stores::Store;

// What is added to the number of a refusal, so that it is no count of steps. What the calls return are numbers, as the C interface states them.
const SCHEDULE_REFUSED: u32 = 65536;

// What a call returns whose slices are too short for its answer.
const TOO_SHORT: u32 = 1;

// 0, with the report in the two slices; 1 if a slice is too short for it, and then nothing is judged or written.
// The twenty parameters are the C interface's, which lends each column by itself.
#[tactic(auto, unfolding(crate::specs::Calls::judging))]
pub fn gannetrope_judge(
    u: &[u8],
    v: &[u8],
    schedule: &[u8],
    w: u32,
    level: &mut [u32],
    low: &mut [u32],
    high: &mut [u32],
    a: &mut [i32],
    b: &mut [i32],
    c: &mut [i32],
    d: &mut [i32],
    other_level: &mut [u32],
    other_low: &mut [u32],
    other_high: &mut [u32],
    other_a: &mut [i32],
    other_b: &mut [i32],
    other_c: &mut [i32],
    other_d: &mut [i32],
    numbers: &mut [u64],
    entries: &mut [i32],
) -> u32
    ensures { returning result
        (columns level.new low.new high.new a.new b.new c.new d.new)
        (columns other_level.new other_low.new other_high.new other_a.new
        other_b.new other_c.new other_d.new)
        numbers.new entries.new
        ≡ judging (answer u.now v.now schedule.now w)
        (columns level.old low.old high.old a.old b.old c.old d.old)
        (columns other_level.old other_low.old other_high.old other_a.old
        other_b.old other_c.old other_d.old)
        numbers.old entries.old }
{
    if numbers.len() < fields::NUMBERS || entries.len() < fields::ENTRIES {
        return TOO_SHORT;
    }
    let mut first = Store {
        level,
        low,
        high,
        a,
        b,
        c,
        d,
    };
    let mut second = Store {
        level: other_level,
        low: other_low,
        high: other_high,
        a: other_a,
        b: other_b,
        c: other_c,
        d: other_d,
    };
    let report = judges::judge(u, v, schedule, w, &mut first, &mut second);
    fields::write_report(report, numbers, entries);
    0
}

// The steps of the proportional schedule of m and p gates, written to the front of the buffer, or 65,536 and the refusal's number.
pub fn gannetrope_schedule(m: u32, p: u32, buffer: &mut [u8]) -> u32
    ensures answer { result ≡ steps_or_refusal (made m p buffer.old) }
    ensures contents { buffer.new ≡ filled m p (made m p buffer.old) buffer.old }
{
    match schedules::proportional(m, p, buffer) {
        Ok(steps) => steps,
        Err(fault) => SCHEDULE_REFUSED + fault as u32,
    }
}

// 0, with the inverse of the list at the front of the buffer and what was answered in `numbers`; 1 if those are too few, and then
// nothing is written.
#[tactic(auto, unfolding(crate::specs::Calls::writing))]
pub fn gannetrope_inverse(list: &[u8], buffer: &mut [u8], numbers: &mut [u64]) -> u32
    ensures { answering result buffer.new numbers.new
        ≡ writing (inverted list.now) buffer.old numbers.old }
{
    if numbers.len() < fields::WRITER_NUMBERS {
        return TOO_SHORT;
    }
    let written = inverses::write_inverse(list, buffer);
    fields::write_written(written, numbers);
    0
}
