// What the program writes, and whether to standard output or to standard error.
ghost use Rattle.std.specs.Prelude.{◌≡◌, ◌≤◌, length};
ghost use Rattle.zkasm.specs.Zkasm.{text_room};
ghost use Rattle.zkasm.specs.Stdin.{incomplete_line};
ghost use Rattle.zkasm.specs.Promised.{Replies};
ghost use Rattle.zkasm.specs.Source.{PrintsInput};

use crate::report::report;
use crate::stdin;
use crate::stdin::Input;
use std::io::Read;

// The input could not be read to its end, so that nothing is printed.
#[derive(Clone, Copy)]
pub struct Unread;

impl Unread {
    // The line for standard error.
    #[tactic(auto, unfolding(crate::specs::Stdin::incomplete_line, text_lexical::specs::Bytes::bytes))]
    pub fn line(self) -> &'static [u8]
        ensures { result.now ≡ incomplete_line }
    {
        b"zkasm: standard input could not be read to its end\n"
    }
}

// Reads the input, and puts the text that is to be printed into a buffer; its length.
pub fn answer_input<R: Read>(reader: &mut R, out: &mut [u8]) -> Result<usize, Unread>
    requires { text_room ≤ length out.old }
    ensures reply { Replies out.old out.new result }
    ensures whole { PrintsInput (R.remaining reader.old) out.new result }
{
    let mut input = stdin::blank();
    match stdin::read_input(reader, &mut input) {
        Input::Whole(n) => Ok(report(&input[..n], out)),
        // the buffer is full, a byte longer than an input may be, which `report` tells of every input by its length
        Input::TooLong => Ok(report(&input, out)),
        Input::Incomplete => Err(Unread),
    }
}
