// The line at a place of a source: what it reads as. Both walks read their lines by it.
ghost use Rattle.std.specs.Prelude.{◌≡◌, ◌≤◌, length};
ghost use Rattle.text_lexical.specs.Names.{present};
ghost use Rattle.image_line.specs.Promised.{context_for, LineIs, next_line};

use image::config::Config;
use instruction::instruction::Draft;
use refusal::refusal::Refusal;
use text_lexical::bytes::Margin;

// What a line does, its label aside: nothing, or one of two things. With an `Option` of those two it would be matched twice.
#[derive(Clone, Copy)]
pub enum Effect {
    Nothing,
    Sets(Config),
    Codes(Draft),
}

// What a line reads as: where its content starts; the length of its label, which stands there, if it has one; what the line does then, or why
// it is refused; and where it ends. Of a line with a bad token nobody asks for the end, and the content's start stands there: an
// `Option` would be tested at every line, for the sake of one that is refused.
#[derive(Clone, Copy)]
pub struct Read {
    pub start: usize,
    pub label: Option<usize>,
    pub effect: Result<Effect, Refusal>,
    pub end: usize,
}

// The line that begins at `at`, where the settings are these. Both ways of reading it begin after its margin. Source, place and settings come
// from the walks, which change the place at each line and the settings at some.
pub fn read_line(source: &[u8], at: usize, config: Config) -> Read
    requires { at ≤ length source.now }
    ensures { LineIs present source.now at (context_for config) result }
{
    let start = text_lexical::bytes::run_end::<Margin>(source, at);
    match crate::fast::read_fast(source, start) {
        Some(read) => read,
        None => crate::record::read_record(source, start, config),
    }
}

// Where the line after one that ends at `end` begins, if one follows, in a source of so many bytes: after the byte 10 that ends the line.
pub fn next_line(size: usize, end: usize) -> Option<usize>
    ensures { result ≡ next_line size end }
{
    if size <= end {
        return None;
    }
    Some(end + 1)
}
