// Bytes of a record: a source or a text in escaped lines, an image in lines of hex. A line may say how often its bytes come.
ghost use Rattle.std.specs.Prelude.{◌≤◌, length};

use crate::lines::number;
use test_replay::cursor::Cursor;
use test_replay::list::Spelled;

// How lines spell their bytes, and the tags of such lines, without and with a count. Each `byte_at` hands on to the function of
// `list` for its spelling, which `list` itself calls, without tags.
pub trait Spelling {
    const TAG: u8;

    const REPEATED: u8;

    fn byte_at(list: &[u8], at: usize) -> Spelled;
}

pub struct Escaped;

impl Spelling for Escaped {
    const TAG: u8 = b's';

    const REPEATED: u8 = b'x';

    fn byte_at(list: &[u8], at: usize) -> Spelled {
        test_replay::list::unescaped_at(list, at)
    }
}

pub struct Hex;

impl Spelling for Hex {
    const TAG: u8 = b'i';

    const REPEATED: u8 = b'j';

    fn byte_at(list: &[u8], at: usize) -> Spelled {
        test_replay::list::hex_byte_at(list, at)
    }
}

// Reads a line's bytes into the room after the first `start`, and answers where they end. What does not go in is left, and then the
// record differs. The room is lent and outlives the reading, which answers a part of it: a struct of room and place would be taken apart there.
// `test_replay: list::line_at` reads one line alone, leaves two bytes before it, and puts byte 10 behind it.
fn put_line<S: Spelling>(cursor: &mut Cursor, room: &mut [u8], start: usize) -> usize
    requires { start ≤ length room.old }
    ensures { result ≤ length room.new }
{
    for end in start..room.len() {
        if cursor.byte() == b'\n' {
            cursor.skip(1);
            return end;
        }
        let spelled = S::byte_at(cursor.list, cursor.at);
        room[end] = spelled.byte;
        cursor.at = spelled.next;
    }
    cursor.skip(1);
    room.len()
}

// Reads the same line `count` times, into the room as `put_line` does: the place goes beside it, since the room outlives the reading.
fn put_repeated<S: Spelling>(
    cursor: &mut Cursor,
    count: u64,
    room: &mut [u8],
    start: usize,
) -> usize
    requires { start ≤ length room.old }
    ensures { result ≤ length room.new }
{
    let line = *cursor;
    let mut end = start;
    for _ in 0..count {
        *cursor = line;
        end = put_line::<S>(cursor, room, end);
    }
    end
}

// Reads the bytes of all lines from a place on into the room, and answers them. There are fewer lines than bytes in the list.
pub(crate) fn put_lines<'a, S: Spelling>(cursor: &mut Cursor, room: &'a mut [u8]) -> &'a [u8]
    ensures { length result.now ≤ length room.old }
{
    let mut filled = 0;
    for _ in 0..cursor.list.len() {
        if cursor.has_tag(S::TAG) {
            cursor.skip(2);
            filled = put_line::<S>(cursor, room, filled);
        } else if let Some(count) = number(cursor, S::REPEATED) {
            filled = put_repeated::<S>(cursor, count, room, filled);
        } else {
            break;
        }
    }
    &room[..filled]
}
