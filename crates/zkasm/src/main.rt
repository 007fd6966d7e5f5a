// Reads a source from standard input and prints the listing of its image, or `refused N line L`. If the source cannot be read to
// its end, or the text cannot be printed, one line on standard error says so.
#![tactic(auto)]

mod reply;
mod report;
mod stdin;

use std::io::Write;

fn main(rt: HostRuntime) {
    let mut out = [0u8; report::TEXT_ROOM];
    match reply::answer_input(&mut rt.stdin(), &mut out) {
        Ok(length) => print(rt, &out[..length]),
        Err(unread) => tell(rt, unread.line()),
    }
}

fn print(rt: HostRuntime, text: &[u8]) {
    if rt.stdout().write_all(text).is_err() {
        tell(rt, b"zkasm: standard output could not be written\n");
    }
}

// If standard error cannot be written either, nobody is left to be told.
fn tell(rt: HostRuntime, line: &[u8]) {
    let _ = rt.stderr().write_all(line);
}
