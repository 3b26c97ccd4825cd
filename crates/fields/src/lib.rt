// A report, and what a writer answers, as numbers in lent slices: what the C interface hands out.
#![tactic(auto)]

ghost use Rattle.std.specs.Prelude.{◌≡◌, ◌≤◌, length};
ghost use Rattle.stores.specs.Columns.{over};
ghost use Rattle.fields.specs.Numbers.{reason_of, numbers_of, entries_of, Shown, written_numbers};

use miters::{Refusal, Report, Verdict};

// How many slots a report takes in either slice, and how many the answer of a writer takes.
pub const NUMBERS: usize = 11;

pub const ENTRIES: usize = 8;

pub const WRITER_NUMBERS: usize = 5;

// The kinds of answer. They are numbers, and so is the rest of an answer, since the C interface hands out numbers.
const KIND_EQUAL: u64 = 0;

const KIND_DIFFERENT: u64 = 1;

const KIND_REFUSED: u64 = 2;

const KIND_WRITTEN: u64 = 0;

// What a refusal returns, with 0 where it has no such number.
#[derive(Clone, Copy, Default)]
struct Reason {
    number: u64,
    list: u64,
    offset: u64,
    steps: u64,
}

impl From<Refusal> for Reason {
    ghost from_gives = { λ why reason. reason ≡ reason_of why };

    #[tactic(auto, unfolding(crate::specs::Numbers::reason_of))]
    fn from(why: Refusal) -> Reason {
        let number = u64::from(why.number());
        let alone = Reason {
            number,
            ..Reason::default()
        };
        match why {
            Refusal::Call(_) => alone,
            Refusal::Byte { list, why } => Reason {
                list: list as u64,
                offset: why.offset as u64,
                ..alone
            },
            Refusal::Step { fault: _, steps } => Reason {
                steps: u64::from(steps),
                ..alone
            },
        }
    }
}

// The kind, the counts, the place, and what a refusal returns.
#[tactic(auto, unfolding(crate::specs::Numbers::numbers_of))]
fn report_numbers(report: Report) -> [u64; NUMBERS]
    ensures { result ≡ numbers_of report }
{
    let (kind, row, column, reason) = match report.verdict {
        Verdict::Equal(_) => (KIND_EQUAL, 0, 0, Reason::default()),
        Verdict::Different(d) => (KIND_DIFFERENT, d.row, d.column, Reason::default()),
        Verdict::Refused(why) => (KIND_REFUSED, 0, 0, Reason::from(why)),
    };
    [
        kind,
        u64::from(report.exponent),
        u64::from(report.steps),
        u64::from(report.nodes),
        u64::from(report.values),
        u64::from(row),
        u64::from(column),
        reason.number,
        reason.list,
        reason.offset,
        reason.steps,
    ]
}

// The factor or the entry, and the corner.
fn verdict_entries(verdict: Verdict) -> [i32; ENTRIES]
    ensures { result ≡ entries_of verdict }
{
    match verdict {
        Verdict::Equal(x) => [x.a, x.b, x.c, x.d, 0, 0, 0, 0],
        Verdict::Different(d) => {
            let x = d.entry;
            let y = d.corner;
            [x.a, x.b, x.c, x.d, y.a, y.b, y.c, y.d]
        }
        Verdict::Refused(_) => [0; ENTRIES],
    }
}

// A report goes into the first slots of two slices, whose other slots stay as they were.
pub fn write_report(report: Report, numbers: &mut [u64], entries: &mut [i32])
    requires { (11 ≤ length numbers.old) × (8 ≤ length entries.old) }
    ensures { Shown report numbers.old entries.old numbers.new entries.new }
{
    numbers[..NUMBERS].copy_from_slice(&report_numbers(report));
    entries[..ENTRIES].copy_from_slice(&verdict_entries(report.verdict));
}

// The kind, the bytes written, and what a refusal returns.
#[tactic(auto, unfolding(crate::specs::Numbers::written_numbers))]
fn written_numbers(written: Result<usize, Refusal>) -> [u64; WRITER_NUMBERS]
    ensures { result ≡ written_numbers written }
{
    match written {
        Ok(bytes) => [KIND_WRITTEN, bytes as u64, 0, 0, 0],
        Err(why) => {
            let reason = Reason::from(why);
            [KIND_REFUSED, 0, reason.number, reason.list, reason.offset]
        }
    }
}

// What a writer answers goes into the first slots of a slice, whose other slots stay as they were.
pub fn write_written(written: Result<usize, Refusal>, numbers: &mut [u64])
    requires { 5 ≤ length numbers.old }
    ensures { numbers.new ≡ over (written_numbers written) numbers.old }
{
    numbers[..WRITER_NUMBERS].copy_from_slice(&written_numbers(written));
}
