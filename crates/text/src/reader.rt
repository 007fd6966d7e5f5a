// The reader: it keeps the text in which a line stands and its next position there, and goes over the line's tokens. The work is left to
// `next_token`, over the slice and the number.
ghost use Rattle.std.specs.Prelude.{◌≡◌, ◌≤◌, length};
ghost use Rattle.text_lexical.specs.Names.{present};
ghost use Rattle.text.specs.Promised.{scan_at, place_after, moved};

use crate::lexer::Scan;

#[derive(Clone, Copy)]
pub(crate) struct Reader<'a> {
    // the whole text: where the line ends is found by reading, so no slice of the line is cut
    text: &'a [u8],
    position: usize,
}

// Where to read on: after a token, and else where it was.
fn place_after(scan: Scan, position: usize) -> usize
    ensures { result ≡ place_after scan position }
{
    match scan {
        Scan::Found { next, .. } => next,
        Scan::Bad => position,
        Scan::End(_) => position,
    }
}

impl<'a> Reader<'a> {
    pub(crate) fn new(text: &'a [u8], position: usize) -> Reader<'a>
        ensures { result ≡ record { text = text.entry; position = position } }
    {
        Reader { text, position }
    }

    // The next token, after which the reader then stands; at a bad token and at the end it stays.
    pub(crate) fn next(&mut self) -> Scan
        requires { self.old.position ≤ length self.old.text.now }
        ensures { (result ≡ scan_at present self.old.text.now self.old.position)
            × (self.new ≡ moved self.old result) }
    {
        let from = self.position;
        let scan = crate::lexer::next_token(self.text, from);
        self.position = place_after(scan, from);
        scan
    }
}
