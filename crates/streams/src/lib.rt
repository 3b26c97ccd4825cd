// Reading into a lent buffer.
#![tactic(auto)]

ghost use Rattle.std.specs.Prelude.{◌≤◌, length, take};
ghost use Rattle.std.specs.Io.KnownBytes.{Consumes};

use std::io::Read;

// Reads until the buffer is full or the input ends, and returns how many bytes, which stand at the front of the buffer. An input
// that cannot be read ends there. Pieces of any size come, so the loop counts the bytes and not its turns.
pub fn read_full<R: Read>(input: &mut R, buffer: &mut [u8]) -> usize
    ensures bound { result ≤ length buffer.new }
    ensures bytes { Consumes (R.remaining input.old) (R.remaining input.new) (take result buffer.new) }
{
    let mut done = 0;
    while done < buffer.len() {
        match input.read(&mut buffer[done..]) {
            Ok(0) | Err(_) => break,
            Ok(n) => done += n,
        }
    }
    done
}

#[cfg(test)]
mod tests {
    use super::*;
    use std::io;

    // Gives at most two bytes a read.
    #[derive(Drop)]
    struct Trickle<'a> {
        rest: &'a [u8],
    }

    impl Read for Trickle<'_> {
        fn read(&mut self, buf: &mut [u8]) -> io::Result<usize> {
            let n = self.rest.len().min(buf.len()).min(2);
            buf[..n].copy_from_slice(&self.rest[..n]);
            self.rest = &self.rest[n..];
            Ok(n)
        }
    }

    #[test]
    fn reads_in_pieces(rt: HostRuntime) {
        for (length, want) in [(8, 5), (5, 5), (4, 4), (0, 0)] {
            let mut input = Trickle { rest: b"abcde" };
            let mut buffer = [0; 8];
            let n = read_full(&mut input, &mut buffer[..length]);
            assert_eq!(rt; n, want, "into {length}");
            assert_eq!(rt; &buffer[..n], &b"abcde"[..n], "into {length}");
        }
    }
}
