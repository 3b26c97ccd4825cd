// The report as its line of text. Each method writes a part of the line behind what is written, and keeps the rest of the buffer.
#![tactic(auto)]

ghost use Rattle.std.specs.Prelude.{◌≡◌, ◌++◌, ◌+◌, ◌≤◌, length};
ghost use Rattle.reports.specs.Line.{numbers, place, refusal, counts, difference, answer, line, over_front};
ghost use Rattle.reports.specs.Writing.{room, Put};

use algebra::Entry;
use itoa::{Buffer, Integer};
use miters::{Difference, Part, Refusal, Report, Verdict};

// The bytes of a buffer: every line fits, since the longest has 224.
pub const ROOM: usize = 256;

// A line as far as it is written: the bytes of the buffer before `end`. Its methods stand in the place of `write!`, whose clauses say what
// is written where it succeeds, and none that it does. It is no `Writer` of a list: its buffer has a fixed size, by which each method has room.
#[derive(Drop)]
struct Line<'a> {
    buffer: &'a mut [u8; ROOM],
    end: usize,
}

impl Line<'_> {
    // Some words, at the line's end.
    fn words(&mut self, words: &[u8])
        requires { self.old.end + length words.now ≤ room }
        ensures { Put words.now (length words.now) self.old self.new }
    {
        let start = self.end;
        self.end += words.len();
        let buffer = &mut *self.buffer;
        buffer[start..self.end].copy_from_slice(words);
    }

    // Some words, which end in a space, and a number, with its sign if it is below zero.
    fn named<I: Integer>(&mut self, words: &[u8], n: I)
        requires { self.old.end + (length words.now + I.MAX_STR_LEN) ≤ room }
        ensures { Put (words.now ++ I.text n) (length words.now + I.MAX_STR_LEN) self.old self.new }
    {
        let mut digits = Buffer::new();
        self.words(words);
        self.words(digits.format(n).as_bytes());
    }

    // Some words and the four numbers of an entry.
    fn entry(&mut self, words: &[u8], x: Entry)
        requires { self.old.end + (length words.now + 48) ≤ room }
        ensures { Put (words.now ++ numbers x) (length words.now + 48) self.old self.new }
    {
        self.words(words);
        self.named(b" ", x.a);
        self.named(b" ", x.b);
        self.named(b" ", x.c);
        self.named(b" ", x.d);
    }

    // What a finished run adds to its verdict.
    fn counts(&mut self, report: Report)
        requires { self.old.end + 72 ≤ room }
        ensures { Put (counts report) 72 self.old self.new }
    {
        self.named(b" exponent ", report.exponent);
        self.named(b" steps ", report.steps);
        self.named(b" nodes ", report.nodes);
        self.named(b" values ", report.values);
    }

    fn difference(&mut self, d: Difference)
        requires { self.old.end + 151 ≤ room }
        ensures { Put (difference d) 151 self.old self.new }
    {
        self.named(b"different row ", d.row);
        self.named(b" column ", d.column);
        self.entry(b" entry", d.entry);
        self.entry(b" corner", d.corner);
    }

    // Where a byte is that was refused.
    fn place(&mut self, list: Part, offset: usize)
        requires { self.old.end + 42 ≤ room }
        ensures { Put (place list offset) 42 self.old self.new }
    {
        self.named(b" list ", list as u32);
        self.named(b" byte ", offset);
    }

    // The number of a refusal, and then what it returns beside it.
    fn refusal(&mut self, why: Refusal)
        requires { self.old.end + 60 ≤ room }
        ensures { Put (refusal why) 60 self.old self.new }
    {
        self.named(b"refused ", why.number());
        match why {
            Refusal::Call(_) => {}
            Refusal::Byte { list, why } => self.place(list, why.offset),
            Refusal::Step { fault: _, steps } => self.named(b" steps ", steps),
        }
    }

    fn answer(&mut self, report: Report)
        requires { self.old.end + 223 ≤ room }
        ensures { Put (answer report.verdict report) 223 self.old self.new }
    {
        match report.verdict {
            Verdict::Equal(factor) => {
                self.entry(b"equal factor", factor);
                self.counts(report);
            }
            Verdict::Different(d) => {
                self.difference(d);
                self.counts(report);
            }
            Verdict::Refused(why) => self.refusal(why),
        }
    }
}

// The report's line, written to the front of the buffer, and its length.
pub fn write_line(report: Report, buffer: &mut [u8; ROOM]) -> usize
    ensures length { result ≡ length (line report) }
    ensures short { result ≤ 224 }
    ensures contents { buffer.new ≡ over_front (line report) buffer.old }
{
    let mut line = Line { buffer, end: 0 };
    line.answer(report);
    line.words(b"\n");
    line.end
}
