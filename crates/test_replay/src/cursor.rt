// A place of a list, which goes on as the list is read. Places have 64 bits: after the last comes the first.
ghost use Rattle.std.specs.Prelude.{◌≡◌, ◌<◌};
ghost use Rattle.test_replay.specs.List.{byte_at, behind, has_tag, is_record_end, number_at};

use crate::list;

#[derive(Clone, Copy)]
pub struct Cursor<'a> {
    pub list: &'a [u8],
    pub at: usize,
}

impl<'a> Cursor<'a> {
    pub fn byte(self) -> u8
        ensures { result ≡ byte_at self.entry.list.now self.entry.at }
    {
        list::byte_at(self.list, self.at)
    }

    // Whether a line with this tag, a byte of the list's own, stands there.
    pub fn has_tag(self, tag: u8) -> bool
        ensures { result ≡ has_tag self.entry.list.now self.entry.at tag }
    {
        list::has_tag(self.list, self.at, tag)
    }

    pub fn is_record_end(self) -> bool
        ensures { result ≡ is_record_end self.entry.list.now self.entry.at }
    {
        list::is_record_end(self.list, self.at)
    }

    // The place so many bytes after this one.
    #[tactic(auto, unfolding(crate::specs::List::behind))]
    pub fn after(self, count: usize) -> Cursor<'a>
        ensures { result ≡ record { list = self.entry.list; at = behind self.entry.at count } }
    {
        Cursor {
            list: self.list,
            at: self.at.wrapping_add(count),
        }
    }

    // Goes on by so many bytes.
    pub fn skip(&mut self, count: usize)
        ensures { self.new ≡ record { list = self.old.list; at = behind self.old.at count } }
    {
        *self = self.after(count);
    }

    // Reads a number and the byte that ends it.
    pub fn number(&mut self) -> u64
        ensures value { result ≡ (number_at 10 self.old.list.now self.old.at).value }
        ensures place { self.new ≡ record { list = self.old.list; at = (number_at 10 self.old.list.now self.old.at).next } }
    {
        self.number_in(10)
    }

    // Reads a number in hex, lower case, and the byte that ends it.
    pub fn hex(&mut self) -> u64
        ensures value { result ≡ (number_at 16 self.old.list.now self.old.at).value }
        ensures place { self.new ≡ record { list = self.old.list; at = (number_at 16 self.old.list.now self.old.at).next } }
    {
        self.number_in(16)
    }

    fn number_in(&mut self, radix: u8) -> u64
        requires { 0 < radix }
        ensures value { result ≡ (number_at radix self.old.list.now self.old.at).value }
        ensures place { self.new ≡ record { list = self.old.list; at = (number_at radix self.old.list.now self.old.at).next } }
    {
        let number = list::number_in(self.list, self.at, radix);
        self.at = number.next;
        number.value
    }
}
