// The verdict program: reads two lists from standard input, judges them, and prints one line.
#![tactic(auto)]

use std::io::Print;

// The most bytes that are read.
const MOST_BYTES: usize = 57344;

fn main(rt: HostRuntime) {
    let mut input = [0; MOST_BYTES];
    let n = streams::read_full(&mut rt.stdin(), &mut input);
    let mut line = [0; reports::ROOM];
    let end = inputs::answer_line(&input[..n], &mut line);
    // The program inverse ends in the same way. A function of both could promise nothing: no clause says what an output has taken.
    if rt.stdout().write_all(&line[..end]).is_err() {
        let _ = rt
            .stderr()
            .write_all(b"verdict: the answer could not be written\n");
    }
}
