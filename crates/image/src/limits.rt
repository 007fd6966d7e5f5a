// The limits of document 01, and what its header has for every program. Code that tests one of them names it here; the header itself is
// written from fixed byte strings, as document 01 names that form. Each function's proof shows that its number is the definition's.

// A longer source is refused (1).
pub const MOST_BYTES: usize = 1048576;

// One more instruction is refused (22), and so is an image with more words (29).
pub const MOST_WORDS: usize = 32768;

// The bytes of a word.
pub const WORD_SIZE: usize = 4;

// The bytes that so many words take, as `code_size` has it: a constant calls no function.
pub const MOST_CODE: u32 = (WORD_SIZE * MOST_WORDS) as u32;

// The bytes of a header, where an image's code begins.
pub const HEADER_SIZE: usize = 32;

// The address of the first word.
pub const ENTRY: u32 = 0x1000;

pub const STACK_SIZE: u32 = 0x100000;

pub const MAGIC: u32 = 0x52494B5A;

pub const VERSION: u32 = 0x00030004;
