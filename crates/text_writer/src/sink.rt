// What takes a text piece by piece. A text has one function that puts it, which measures it into a `Length` and writes it into a `Writer`.
// The library's `Display` only writes, and document 01 leaves it out.
ghost use Rattle.std.specs.Prelude.{◌≡◌, ◌≤◌, ℕ, ◌∷◌, [], List, length};
ghost use Rattle.text_lexical.specs.Numbers.{decimal};
ghost use Rattle.text_writer.specs.Sinks.{SinkLaws, HasLength, Counted, HasRoom, WrittenOn};
ghost use Rattle.text_writer.specs.Laws.{length_laws, writer_laws};

pub trait Sink {
    // A text may be put now.
    ghost Fits: { Self → List ℕ → Type 0 };

    // A text was put, and this is the sink afterwards.
    ghost Took: { Self → List ℕ → Self → Type 0 };

    fn put(&mut self, byte: u8)
        requires { Fits self.old (byte ∷ []) }
        ensures { Took self.old (byte ∷ []) self.new };

    fn put_bytes(&mut self, bytes: &[u8])
        requires { Fits self.old bytes.now }
        ensures { Took self.old bytes.now self.new };

    fn put_decimal(&mut self, n: u64)
        requires { Fits self.old (decimal n) }
        ensures { Took self.old (decimal n) self.new };

    // Pieces that are put one after the other are one text.
    ghost laws: { SinkLaws Fits Took };
}

// How many digits a number has.
fn decimal_length(n: u64) -> usize
    ensures value { result ≡ length (decimal n) }
    ensures bound { result ≤ 20 }
{
    match n.checked_ilog10() {
        None => 1,
        Some(tens) => tens as usize + 1,
    }
}

// Counts the bytes that are put, up to the largest number, so that it asks nothing of a text.
#[derive(Drop)]
pub struct Length {
    pub length: usize,
}

impl Sink for Length {
    ghost Fits = { HasLength };

    ghost Took = { Counted };

    fn put(&mut self, byte: u8) {
        self.length = self.length.saturating_add(1);
    }

    fn put_bytes(&mut self, bytes: &[u8]) {
        self.length = self.length.saturating_add(bytes.len());
    }

    fn put_decimal(&mut self, n: u64) {
        self.length = self.length.saturating_add(decimal_length(n));
    }

    ghost laws = { length_laws };
}

// Writes the bytes that are put into a lent buffer, from a place on.
#[derive(Drop)]
pub struct Writer<'a> {
    pub out: &'a mut [u8],
    pub at: usize,
}

impl Sink for Writer<'_> {
    ghost Fits = { HasRoom };

    ghost Took = { WrittenOn };

    fn put(&mut self, byte: u8) {
        self.out[self.at] = byte;
        self.at += 1;
    }

    fn put_bytes(&mut self, bytes: &[u8]) {
        let end = self.at + bytes.len();
        self.out[self.at..end].copy_from_slice(bytes);
        self.at = end;
    }

    // Most numbers of a listing have one digit, which is written at once: by the library's loop a listing took a tenth longer.
    fn put_decimal(&mut self, n: u64) {
        if n < 10 {
            self.put(b'0' + n as u8);
            return;
        }
        let end = self.at + decimal_length(n);
        itoa::write_digits(n, self.out, end);
        self.at = end;
    }

    ghost laws = { writer_laws };
}
