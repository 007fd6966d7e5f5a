// The header of an image: written, read and checked.
ghost use Rattle.std.specs.Prelude.{◌≡◌, ◌+◌, ◌*◌, ◌≤◌, length};
ghost use Rattle.refusal.specs.Refusals.{answered, fault_of};
ghost use Rattle.image.specs.Assembling.{most_words, address_after};
ghost use Rattle.image.specs.Program.{header_bytes, header_for, image_length, number_at, header_of};
ghost use Rattle.image.specs.Opening.{header_fault, opening};
ghost use Rattle.image.specs.Promised.{settings_meant, header_meant, opened_meant};

use crate::config::Config;
use crate::limits::{ENTRY, HEADER_SIZE, MAGIC, VERSION, WORD_SIZE};
use refusal::refusal::Refusal;
use text_writer::sink::Sink;

#[derive(Clone, Copy)]
pub struct ProgramHeader {
    pub magic: u32,
    pub version: u32,
    pub config: Config,
    pub flags: u8,
    pub entry_point: u32,
    pub code_size: u32,
    pub data_size: u32,
    pub bss_size: u32,
    pub stack_size: u32,
}

// An image's header, and where its code ends, which begins after the header; its data fill the rest. A number, as C has it, and not the code's
// slice.
#[derive(Clone, Copy)]
pub struct Opened {
    pub header: ProgramHeader,
    pub code_end: usize,
}

// The bytes of the code of so many words, of which there are no more than there may be.
#[tactic(auto, unfolding(crate::specs::Assembling::most_words))]
pub fn code_size(words: usize) -> usize
    requires { words ≤ most_words }
    ensures { result ≡ 4 * words }
{
    WORD_SIZE * words
}

// The bytes of an image of so many words.
#[tactic(auto, unfolding(crate::specs::Assembling::most_words, crate::specs::Program::image_length, crate::specs::Program::header_size))]
pub fn image_length(words: usize) -> usize
    requires { words ≤ most_words }
    ensures { result ≡ image_length words }
{
    HEADER_SIZE + code_size(words)
}

// The address of the word that follows so many words.
#[tactic(auto, unfolding(crate::specs::Assembling::most_words, crate::specs::Assembling::address_after, crate::specs::Program::entry))]
pub fn address_after(words: usize) -> u64
    requires { words ≤ most_words }
    ensures { result ≡ address_after words }
{
    u64::from(ENTRY) + code_size(words) as u64
}

// Puts the header of a program with settings and a size of code. Entry and stack size are fixed byte strings, as document 01 names that
// form, and so do not come out of the constants; the contract's `header_for` has the same numbers as those.
pub fn put_header<S: Sink>(sink: &mut S, config: Config, code_size: u32)
    requires { S.Fits sink.old (header_bytes (header_for (settings_meant config) code_size 0)) }
    ensures { S.Took sink.old (header_bytes (header_for (settings_meant config) code_size 0)) sink.new }
{
    // magic, version
    sink.put_bytes(b"ZKIR\x04\x00\x03\x00");
    // and no flags
    sink.put_bytes(&[config.limb_bits, config.data_limbs, config.addr_limbs, 0]);
    // entry
    sink.put_bytes(b"\x00\x10\x00\x00");
    sink.put_bytes(&code_size.to_le_bytes());
    // data, bss, stack
    sink.put_bytes(b"\x00\x00\x00\x00\x00\x00\x00\x00\x00\x00\x10\x00");
}

// A header's parts are read at their places, from an image that is asked to have them all: document 01's form of slice and place.
fn read_u32(image: &[u8], at: usize) -> u32
    requires { at + 4 ≤ length image.now }
    ensures { result ≡ number_at at 4 image.now }
{
    u32::from_le_bytes([image[at], image[at + 1], image[at + 2], image[at + 3]])
}

#[tactic(auto, unfolding(crate::specs::Settings::settings, crate::specs::Program::header_of), using(crate::proofs::Heads::number_one))]
fn read_config(image: &[u8]) -> Config
    requires { 32 ≤ length image.now }
    ensures { settings_meant result ≡ (header_of image.now).setup }
{
    Config {
        limb_bits: image[8],
        data_limbs: image[9],
        addr_limbs: image[10],
    }
}

#[tactic(auto, unfolding(crate::specs::Program::header_of), using(crate::proofs::Heads::number_one))]
fn read_header(image: &[u8]) -> ProgramHeader
    requires { 32 ≤ length image.now }
    ensures { header_meant result ≡ header_of image.now }
{
    ProgramHeader {
        magic: read_u32(image, 0),
        version: read_u32(image, 4),
        config: read_config(image),
        flags: image[11],
        entry_point: read_u32(image, 12),
        code_size: read_u32(image, 16),
        data_size: read_u32(image, 20),
        bss_size: read_u32(image, 24),
        stack_size: read_u32(image, 28),
    }
}

impl ProgramHeader {
    // Magic, version and settings, as the Rust's function of that name has it (25, 26, 10 to 13).
    #[tactic(auto, unfolding(crate::specs::Opening::header_fault, crate::specs::Program::magic, crate::specs::Program::version))]
    fn validate(self) -> Result<(), Refusal>
        ensures { fault_of result ≡ header_fault (header_meant self) }
    {
        if self.magic != MAGIC {
            return Err(Refusal::WrongMagic);
        }
        if self.version != VERSION {
            return Err(Refusal::WrongVersion);
        }
        self.config.validate()
    }
}

// The header of an image and its parts.
pub fn open(image: &[u8]) -> Result<Opened, Refusal>
    ensures { answered (opened_meant image.now) result ≡ opening image.now }
{
    if image.len() < HEADER_SIZE {
        return Err(Refusal::HeaderCut);
    }
    let header = read_header(image);
    header.validate()?;
    if header.code_size % WORD_SIZE as u32 != 0 {
        return Err(Refusal::CodeSize);
    }
    let code_end = HEADER_SIZE + header.code_size as usize;
    if image.len() != code_end + header.data_size as usize {
        return Err(Refusal::ImageLength);
    }
    Ok(Opened { header, code_end })
}
