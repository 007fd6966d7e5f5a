// The program's input, read until it ends or until it is too long.
ghost use Rattle.std.specs.Prelude.{ℕ, ◌≡◌, ◌+◌, ◌≤◌, ◌<◌, length, take, get_or};
ghost use Rattle.zkasm.specs.Stdin.{input_room, failed, delivery_of, count_of, step_of};
ghost use Rattle.zkasm.specs.declared.stdin.Step.TheVariants.{Done};
ghost use Rattle.zkasm.specs.Promised.{Delivers, ReadsPiece, Received};
ghost use Rattle.zkasm.specs.Source.{Brings, Takes};

use std::io;
use std::io::Read;

// The bytes that an input may have.
pub const MOST_INPUT: usize = 16384;

// One byte more, so that a longer input is seen.
pub const ROOM: usize = MOST_INPUT + 1;

// The number of times that an interrupted read is tried again.
const TRIES: usize = 100;

// The number of the error of a call that was interrupted before a byte came. By the system's number, since an error of the library's own has none
// and is no interruption of the call.
const INTERRUPTION: i32 = 4;

// What a call of `read` delivered: a number of bytes, or the news that no more follow. Four outcomes, each of which another
// step follows, so this is no `Result`.
#[derive(Clone, Copy)]
enum Delivery {
    Piece(usize),
    End,
    Interrupted,
    Failed,
}

// What reading came to: three outcomes, of which two are printed for, so this is no `Result`.
#[derive(Clone, Copy)]
pub enum Input {
    Whole(usize),
    TooLong,
    Incomplete,
}

// What follows a delivery: another read, with the number of bytes so far and of tries left, or the outcome, which is no error, so this is
// no `Result`; a `ControlFlow` would call the two Continue and Break, which no `?` hands on.
#[derive(Clone, Copy)]
enum Step {
    Again { filled: usize, tries: usize },
    Done(Input),
}

// The meaning of an error, by the number that the operating system has for it, if it has one.
fn failure_of(number: Option<i32>) -> Delivery
    ensures { result ≡ failed number }
{
    if number == Some(INTERRUPTION) {
        return Delivery::Interrupted;
    }
    Delivery::Failed
}

// The meaning of an answer of `read`, which a `From` for the library's own type would hide.
fn delivery_of(answer: io::Result<usize>) -> Delivery
    ensures { result ≡ delivery_of answer }
{
    match answer {
        Ok(n) if n == 0 => Delivery::End,
        Ok(n) => Delivery::Piece(n),
        Err(error) => failure_of(error.raw_os_error()),
    }
}

// Decides whether to read on. Only the end makes an input whole.
fn step_after(filled: usize, tries: usize, delivery: Delivery) -> Step
    requires { filled + count_of delivery ≤ input_room }
    ensures { result ≡ step_of filled tries delivery }
{
    match delivery {
        Delivery::Piece(n) => {
            let filled = filled + n;
            if filled < ROOM {
                return Step::Again { filled, tries };
            }
            Step::Done(Input::TooLong)
        }
        Delivery::End => Step::Done(Input::Whole(filled)),
        Delivery::Interrupted => {
            if 0 < tries {
                let tries = tries - 1;
                Step::Again { filled, tries }
            } else {
                Step::Done(Input::Incomplete)
            }
        }
        Delivery::Failed => Step::Done(Input::Incomplete),
    }
}

// So many zeros, for any length: of a long array as it is written, no proof closes.
fn zeros<const N: usize>() -> [u8; N]
    ensures { (i : ℕ) → get_or result i 0 ≡ 0 }
{
    [0; N]
}

// A buffer for an input, or for a piece of one.
pub fn blank() -> [u8; ROOM]
    ensures room { input_room ≡ length result }
    ensures zeros { (i : ℕ) → get_or result i 0 ≡ 0 }
{
    zeros::<ROOM>()
}

// Reads once. At least one byte is asked for, because an answer of 0 means the end only then.
fn read_some<R: Read>(reader: &mut R, piece: &mut [u8]) -> Delivery
    requires { 0 < length piece.old }
    ensures delivery { Delivers (length piece.old) result }
    ensures bytes { Brings (R.remaining reader.old) (R.remaining reader.new) (take (count_of result) piece.new) result }
{
    delivery_of(reader.read(piece))
}

// Reads once, as much as there is room for, and puts the piece after the bytes that came before. The call is lent a buffer of its
// own, because nothing is known of the bytes that it leaves after the piece. There is no heap, so both buffers have their length from the start,
// and how far the input is filled is a number beside them.
fn read_piece<R: Read>(
    reader: &mut R,
    input: &mut [u8],
    filled: usize,
    piece: &mut [u8],
) -> Delivery
    requires room_left { filled < length input.old }
    requires piece_as_long { length piece.old ≡ length input.old }
    ensures piece { ReadsPiece filled input.old piece.new input.new result }
    ensures bytes { Brings (R.remaining reader.old) (R.remaining reader.new) (take (count_of result) piece.new) result }
{
    let left = input.len() - filled;
    let delivery = read_some(reader, &mut piece[..left]);
    if let Delivery::Piece(n) = delivery {
        input[filled..filled + n].copy_from_slice(&piece[..n]);
    }
    delivery
}

// Reads until the input ends or fills the buffer, or until a read fails. How many calls that takes is known by their answers alone, so the loop
// is no `for`.
pub fn read_input<R: Read>(reader: &mut R, input: &mut [u8]) -> Input
    requires { length input.old ≡ input_room }
    ensures calls { Received input.old input.new (Done result) }
    ensures source { Takes (R.remaining reader.old) (R.remaining reader.new) input.new result }
{
    let mut piece = blank();
    let mut filled = 0;
    let mut tries = TRIES;
    loop {
        let delivery = read_piece(reader, input, filled, &mut piece);
        match step_after(filled, tries, delivery) {
            Step::Again {
                filled: more,
                tries: left,
            } => {
                filled = more;
                tries = left;
            }
            Step::Done(outcome) => return outcome,
        }
    }
}
