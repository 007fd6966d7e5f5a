// The text of a report, put piece after piece into a room that the program lends and then writes: there is no heap. What goes past the
// room's end is left out.
ghost use Rattle.std.specs.Prelude.{◌≤◌, length};

use itoa::Buffer;

// The room, and where the text in it ends.
#[derive(Drop)]
pub struct Report<'a> {
    pub room: &'a mut [u8],
    pub end: usize,
    ghost within: { end ≤ length room.now },
}

impl<'a> Report<'a> {
    ghost use Rattle.std.specs.Prelude.{◌≡◌, min, take};
    ghost use Rattle.test_replay.specs.Report.{decimal, filled, difference_text, Put};

    // A report whose text ends at a place, or at the room's end where the place is past it.
    pub fn at(room: &'a mut [u8], end: usize) -> Report<'a>
        ensures end { result.end ≡ min end (length room.old) }
        ensures room { result.room.now ≡ room.old }
        ensures same_room { result.room.ghost_name ≡ room.entry.ghost_name }
    {
        let end = end.min(room.len());
        Report { room, end }
    }

    // A report without a text as yet.
    pub fn new(room: &'a mut [u8]) -> Report<'a>
        ensures end { result.end ≡ 0 }
        ensures room { result.room.now ≡ room.old }
        ensures same_room { result.room.ghost_name ≡ room.entry.ghost_name }
    {
        Report::at(room, 0)
    }

    pub fn text(&self) -> &[u8]
        ensures { result.now ≡ take self.now.end self.now.room.now }
    {
        &self.room[..self.end]
    }

    // Puts bytes behind the text.
    pub fn put(&mut self, bytes: &[u8])
        ensures { Put self.old bytes.now self.new }
    {
        let n = bytes.len().min(self.room.len() - self.end);
        let end = self.end + n;
        self.room[self.end..end].copy_from_slice(&bytes[..n]);
        self.end = end;
    }

    // Puts a number in decimal.
    fn put_number(&mut self, n: u64)
        ensures { Put self.old (decimal n) self.new }
    {
        let mut buffer = Buffer::new();
        self.put(buffer.format(n).as_bytes());
    }

    // Puts a text in which each `#` stands for the next of the numbers, as long as there is one.
    pub fn put_filled(&mut self, text: &[u8], numbers: &[u64])
        ensures { Put self.old (filled text.now numbers.now) self.new }
    {
        let mut left = numbers;
        for &byte in text {
            match left {
                [number, rest @ ..] if byte == b'#' => {
                    self.put_number(*number);
                    left = rest;
                }
                _ => self.put(&[byte]),
            }
        }
    }

    // Puts the line of a record that differs, by its number, counted from 1.
    pub fn put_difference(&mut self, number: u64)
        ensures { Put self.old (difference_text number) self.new }
    {
        self.put_filled(b"differs: record #\n", &[number]);
    }
}
