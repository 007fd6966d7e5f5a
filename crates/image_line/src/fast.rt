// A line read from its bytes at once, without the record of its tokens: its label, its mnemonic and its operands. A line of any other shape
// is left to the record. What is read stands between two places of the lent source, and each contract asks that they are within it: slice and
// place, the form that document 01 names for what goes over a line.
ghost use Rattle.std.specs.Prelude.{◌≡◌, ◌≤◌, ◌<◌, length};
ghost use Rattle.text_lexical.specs.Names.{present};
ghost use Rattle.instruction.specs.Promised.{form_meant};
ghost use Rattle.text.specs.Places.{StartsAt};
ghost use Rattle.image_line.specs.Promised.{Tails, is_label, FirstWordIs, FastIs};

use crate::bytes::Bytes;
use crate::line::{Effect, Read};
use instruction::instruction::Draft;
use instruction::opcode::Mnemonic;
use text_lexical::bytes::Blank;
use text_lexical::name::{RegisterName, Word};

// The length of a line's label, if it has one; the place where what follows the label begins; and the word there, if one begins there. The
// code reads on from the place where there is no word; where there is one, the contract says by it where the word stands.
#[derive(Clone, Copy)]
struct FirstWord {
    label: Option<usize>,
    at: usize,
    word: Option<Word>,
}

// An instruction, and the line's end after its operands.
#[derive(Clone, Copy)]
struct Tail {
    draft: Draft,
    end: usize,
}

// The operands of a mnemonic from `from` on, up to the line's end.
fn read_tail(source: &[u8], from: usize, mnemonic: Mnemonic) -> Option<Tail>
    requires { from ≤ length source.now }
    ensures { Tails present source.now from mnemonic result }
{
    let mut left = Bytes {
        text: source,
        at: from,
    };
    let draft = instruction_operands::source::read_operands(&mut left, mnemonic).ok()?;
    let end = text::lexer::ending_at(source, left.at)?;
    Some(Tail { draft, end })
}

// Whether the word from `at` to `end` is a label: a colon follows it at once, and it is no register's name. A label with blanks before its
// colon is left to the record. It is asked of two places and not of a slice, because the colon stands after the word.
#[tactic(auto, using(crate::proofs::Lines::no_byte, crate::proofs::Lines::no_colon))]
fn is_label(source: &[u8], at: usize, end: usize) -> bool
    requires not_empty { at < end }
    requires end_in_text { end ≤ length source.now }
    ensures { result ≡ is_label present source.now at end }
{
    if source.len() <= end || source[end] != b':' {
        return false;
    }
    let name = text_lexical::name::parse_register(&source[at..end]);
    matches!(name, RegisterName::Other)
}

// The first word from `start` on, and the label before it if there is one. It is one loop, which reads at most two words, so that a word is
// read at one place; it is no `for`, because what is read decides whether a second word is. Whether a word begins is asked before it is read,
// and so its first byte is looked up twice: told by the word's end instead, sources of nothing but labels take 4 to 10 in 100 longer, though
// one of all `ecall` takes 5 less. It is compiled in line: as a call it takes ordinary lines 2 in 100 longer, and a source of all `ecall` 17.
#[inline(always)]
#[tactic(auto, using(crate::proofs::Lines::word_bounds))]
fn first_word(source: &[u8], start: usize) -> FirstWord
    requires { start ≤ length source.now }
    ensures { FirstWordIs present source.now start result }
{
    let mut label = None;
    let mut at = start;
    loop {
        if source.len() <= at || !text_lexical::bytes::is_name_start(source[at]) {
            return FirstWord {
                label,
                at,
                word: None,
            };
        }
        let word = text_lexical::name::lower_word(source, at);
        let end = word.end;
        if label.is_some() || !is_label(source, at, end) {
            return FirstWord {
                label,
                at,
                word: Some(word),
            };
        }
        label = Some(end - at);
        at = text_lexical::bytes::run_end::<Blank>(source, end + 1);
    }
}

// The line whose content starts at `start`, as is asked of whoever reads on from a margin, if its bytes tell what it reads as: an instruction,
// after a label or not; a label alone; nothing.
pub(crate) fn read_fast(source: &[u8], start: usize) -> Option<Read>
    requires { StartsAt source.now start }
    ensures { FastIs present source.now start result }
{
    let first = first_word(source, start);
    let label = first.label;
    let Some(word) = first.word else {
        let end = text::lexer::ending_at(source, first.at)?;
        return Some(Read {
            start,
            label,
            effect: Ok(Effect::Nothing),
            end,
        });
    };
    let mnemonic = instruction::opcode::find_mnemonic(word.key?)?;
    let tail = read_tail(source, word.end, mnemonic)?;
    Some(Read {
        start,
        label,
        effect: Ok(Effect::Codes(tail.draft)),
        end: tail.end,
    })
}
