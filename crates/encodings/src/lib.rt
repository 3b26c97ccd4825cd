// The bytes of a list: a list is accepted exactly if it is the encoding of some gates within the limits (laws), and the writer of numbers.
#![tactic(auto)]

ghost use Rattle.std.specs.Prelude.{◌≡◌, [], ◌∷◌, ◌+◌, ◌<◌, ◌≤◌, length};
ghost use Rattle.encodings.specs.Encoding.{groups, number_bytes};
ghost use Rattle.encodings.specs.Writing.{Wrote};

use circuits::GROUP;

// The bits of a group.
const GROUP_BITS: u32 = 7;

// The top bit of a byte: another group follows.
const MORE: u32 = 128;

// How many groups of seven bits hold the significant bits of a number: one for 0, which has none.
fn group_count(v: u32) -> u32
    ensures { result ≡ groups v }
{
    let significant = u32::BITS - v.leading_zeros();
    u32::max(significant.div_ceil(GROUP_BITS), 1)
}

// A buffer, and the place in it that is written next.
#[derive(Drop)]
pub struct Writer<'a> {
    pub buffer: &'a mut [u8],
    pub at: usize,
}

impl Writer<'_> {
    // Writes a byte.
    fn byte(&mut self, value: u8)
        requires { self.old.at < length self.old.buffer.now }
        ensures { Wrote (value ∷ []) self.old self.new }
    {
        self.buffer[self.at] = value;
        self.at += 1;
    }

    // Writes a number, in the shortest form.
    pub fn number(&mut self, v: u32)
        requires v_bound { v < 2097152 }
        requires v_in_bounds { self.old.at + length (number_bytes v) ≤ length self.old.buffer.now }
        ensures { Wrote (number_bytes v) self.old self.new }
    {
        let mut rest = v;
        for _group in 1..group_count(v) {
            self.byte((rest % GROUP + MORE) as u8);
            rest /= GROUP;
        }
        self.byte(rest as u8);
    }
}
