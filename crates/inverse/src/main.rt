// The inverse program: reads a list from standard input and writes its inverse to standard output, or its refusal's line to standard error.
#![tactic(auto)]

use miters::Report;
use std::io::Print;

// More bytes than any valid list has, and enough of a longer one for its refusal.
const ROOM: usize = 32768;

fn main(rt: HostRuntime) {
    let mut list = [0; ROOM];
    let n = streams::read_full(&mut rt.stdin(), &mut list);
    let mut inverse = [0; ROOM];
    match inverses::write_inverse(&list[..n], &mut inverse) {
        Ok(end) => {
            // As in the program verdict, where a line says why this is no function of both.
            if rt.stdout().write_all(&inverse[..end]).is_err() {
                let _ = rt
                    .stderr()
                    .write_all(b"inverse: the list could not be written\n");
            }
        }
        Err(why) => {
            let mut line = [0; reports::ROOM];
            let end = reports::write_line(Report::from(why), &mut line);
            let _ = rt.stderr().write_all(&line[..end]);
        }
    }
}
