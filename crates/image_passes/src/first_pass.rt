// The first walk: from label to label it finds settings, the count of words and the first refusal. Entering the labels is left to the
// caller, who holds the label table.
ghost use Rattle.std.specs.Prelude.{◌≡◌, ◌+◌, ◌≤◌, length, take, ltb};
ghost use Rattle.refusal.specs.Refusals.{number_of};
ghost use Rattle.text.specs.Lines.{lines};
ghost use Rattle.image.specs.Assembling.{rust_line_of, most_bytes};
ghost use Rattle.text_lexical.specs.Names.{present};
ghost use Rattle.instruction.specs.Promised.{names_label};
ghost use Rattle.image_passes.specs.Promised.{line_refused, one_more, found_with, ended, label_pass, line_after, begun, followed, Sound, Scannable, ReadsOn};

use image::config::Config;
use image::limits::{MOST_BYTES, MOST_WORDS};
use image_labels::label::Label;
use image_line::line::{Effect, Read};
use instruction::instruction::Draft;
use refusal::refusal::Refusal;
use text_lexical::bytes::{Class, Inside};

// What the first walk does next: it reads on from a line, or it has ended. The end is no error, so this is no `Result`, and a
// `ControlFlow` would call the two Continue and Break, which no `?` hands on.
#[derive(Clone, Copy)]
pub enum Next {
    From(Cursor),
    Ended(Verdict),
}

// What the lines so far have come to: their words and settings, and whether one of them names a label for its number.
#[derive(Clone, Copy)]
pub struct Found {
    pub words: usize,
    pub config: Config,
    pub targets: bool,
}

// A line that is to be read: where it begins, its number, and what the lines before it have come to.
#[derive(Clone, Copy)]
pub struct Cursor {
    pub at: usize,
    pub line: usize,
    pub found: Found,
}

// Where the first walk comes to as it reads on: to a label that is to be entered, or to its end. Neither is an error, so this is no `Result`,
// nor does one of them break off what the other continues.
#[derive(Clone, Copy)]
pub enum Pass {
    AtLabel(LabelLine),
    Ended(Verdict),
}

// A line whose label is to be entered, and what the rest of the line comes to.
#[derive(Clone, Copy)]
pub struct LabelLine {
    pub label: Label,
    pub line: usize,
    pub rest: Result<Done, Refusal>,
}

// What the lines up to the end of a line have come to, and where it ends.
#[derive(Clone, Copy)]
pub struct Done {
    pub found: Found,
    pub end: usize,
}

// How the first walk has ended, and then the reading of a source, once its labels are looked up: all lines are read, or it is refused.
pub type Verdict = Result<Found, Stopped>;

// Why a source is refused, the Rust's line and the true line.
#[derive(Clone, Copy)]
pub struct Stopped {
    pub refusal: Refusal,
    pub rust_line: usize,
    pub line: usize,
}

// The number of the line that a place stands in. It is counted in a loop, which takes less than half the time of a filter's `count`.
fn line_number(source: &[u8], place: usize) -> usize
    requires { place ≤ length source.now }
    ensures { result ≡ length (lines (take place source.now)) }
{
    let mut line = 1;
    for &byte in &source[..place] {
        if !Inside::has(byte) {
            line += 1;
        }
    }
    line
}

// The Rust's line of a refusal at a line: 0 where it gives none, as document 01 has it.
#[tactic(auto, unfolding(image::specs::Assembling::rust_line_of))]
fn rust_line(refusal: Refusal, line: usize) -> usize
    ensures { result ≡ rust_line_of (number_of refusal) line }
{
    match refusal {
        Refusal::BadToken | Refusal::NumberExpected | Refusal::NoSuchRegister => 0,
        _ => line,
    }
}

// A source that is refused for a line.
pub(crate) fn line_refused(refusal: Refusal, line: usize) -> Stopped
    ensures { result ≡ line_refused refusal line }
{
    Stopped {
        refusal,
        rust_line: rust_line(refusal, line),
        line,
    }
}

// A line with an instruction, which is refused if it is the 32,769th.
#[tactic(auto, unfolding(crate::specs::Promised::one_more, image::specs::Assembling::most_words))]
fn counted(draft: Draft, found: Found) -> Result<Found, Refusal>
    ensures { result ≡ one_more (names_label draft.amount) found }
{
    if found.words < MOST_WORDS {
        return Ok(Found {
            words: found.words + 1,
            targets: found.targets || draft.names_label(),
            ..found
        });
    }
    Err(Refusal::TooManyWords)
}

// What a line comes to by what it does, after what the lines before it have come to.
#[tactic(auto, unfolding(image::specs::Settings::settings), using(crate::proofs::Steps::refusal_back))]
fn found_after(effect: Result<Effect, Refusal>, found: Found) -> Result<Found, Refusal>
    ensures { result ≡ found_with effect found }
{
    match effect? {
        Effect::Nothing => Ok(found),
        Effect::Sets(config) => Ok(Found { config, ..found }),
        Effect::Codes(draft) => counted(draft, found),
    }
}

// What a line that was read comes to, with its end.
fn rest_of(read: Read, found: Found) -> Result<Done, Refusal>
    ensures { result ≡ ended (found_with read.effect found) read.end }
{
    Ok(Done {
        found: found_after(read.effect, found)?,
        end: read.end,
    })
}

// The label of a cursor's line is to be entered, which begins at `start`.
#[tactic(auto, unfolding(image::specs::Assembling::most_words))]
fn at_label(start: usize, length: usize, cursor: Cursor, rest: Result<Done, Refusal>) -> Pass
    requires { cursor.found.words ≤ 32768 }
    ensures { result ≡ label_pass start length cursor.found.words cursor.line rest }
{
    let label = Label {
        start,
        length,
        address: image::program::address_after(cursor.found.words),
    };
    Pass::AtLabel(LabelLine {
        label,
        line: cursor.line,
        rest,
    })
}

// What follows a line, by what it comes to, in a source of so many bytes: its refusal, the end, or the next line.
#[tactic(auto, unfolding(crate::specs::Promised::line_after, image::specs::Assembling::most_bytes))]
fn after_line(size: usize, line: usize, rest: Result<Done, Refusal>) -> Next
    requires size_fits { size ≤ most_bytes }
    requires line_fits { line ≤ size + 1 }
    ensures { result ≡ line_after size line rest }
{
    match rest {
        Err(refusal) => Next::Ended(Err(line_refused(refusal, line))),
        Ok(done) => match image_line::line::next_line(size, done.end) {
            None => Next::Ended(Ok(done.found)),
            Some(at) => Next::From(Cursor {
                at,
                line: line + 1,
                found: done.found,
            }),
        },
    }
}

// Reads on from a line to the next label or the end. It has one caller, so that it is compiled in line there: with a `Pass` that is returned
// through memory, each label takes half as much time again.
#[tactic(auto, using(crate::proofs::Scanning::scans_end, crate::proofs::Scanning::scans_less))]
pub fn read_on(source: &[u8], from: Cursor) -> Pass
    requires { Scannable source.now from }
    ensures { ReadsOn present source.now from result }
{
    let mut cursor = from;
    // where a line ends is found by reading it, so there is no list of lines to walk
    loop {
        let read = image_line::line::read_line(source, cursor.at, cursor.found.config);
        let rest = rest_of(read, cursor.found);
        if let Some(length) = read.label {
            return at_label(read.start, length, cursor, rest);
        }
        match after_line(source.len(), cursor.line, rest) {
            Next::Ended(verdict) => return Pass::Ended(verdict),
            Next::From(next) => cursor = next,
        }
    }
}

// Whether a source is refused for its length (1). This is asked before anything else is done for it.
#[tactic(auto, unfolding(image::specs::Assembling::most_bytes))]
pub fn too_long(source: &[u8]) -> bool
    ensures { result ≡ ltb most_bytes (length source.now) }
{
    MOST_BYTES < source.len()
}

// The first line of a source, unless it is refused before any line (2).
pub fn begin(source: &[u8]) -> Result<Cursor, Stopped>
    requires { length source.now ≤ most_bytes }
    ensures { result ≡ begun source.now }
{
    let clean = text_lexical::bytes::ascii_end(source, 0);
    if clean < source.len() {
        return Err(Stopped {
            refusal: Refusal::NotAscii,
            rust_line: 0,
            line: line_number(source, clean),
        });
    }
    Ok(Cursor {
        at: 0,
        line: 1,
        found: Found {
            words: 0,
            config: Config::begin(),
            targets: false,
        },
    })
}

// What follows a label that has been entered, or refused: the label's refusal, that of its line, the next line or the end.
#[tactic(auto, unfolding(image::specs::Assembling::most_bytes))]
pub fn go_on(source: &[u8], at: LabelLine, entered: Result<(), Refusal>) -> Next
    requires { Sound source.now at }
    ensures { result ≡ followed source.now at entered }
{
    after_line(source.len(), at.line, entered.and(at.rest))
}
