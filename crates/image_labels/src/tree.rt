// While labels are entered, their entries are the nodes of 4-way tries, one for each hash bucket. A label's start, length and address are
// below 2^21. Above its start and above its address an entry holds two of its four children each, as numbers of 21 bits, and above its
// length 43 bits of its spelling's hash. There is no heap, and the table is lent by the caller, so a child is the number of an entry and no `Box`.
ghost use Rattle.std.specs.Prelude.{◌≡◌, ◌+◌, ◌/◌, ◌%◌, ◌≤◌, ◌<◌, length, set};
ghost use Rattle.text_lexical.specs.Bytes.{same};
ghost use Rattle.image_labels.specs.Promised.{InText, spelled};
ghost use Rattle.image_labels.specs.Tree.{plain as plain_of, child_number, place_before as before, link as link_of, child_bits, linked as linkedOf, mixed, packed_bytes, hash_of, advanced, hits as hitsOf, Rootable, slot_of, first_stage as first_stage_of, begun, found_of, span, visited, Enterable, Visitable};

use crate::label::{Gap, Label};

// A label's source is lent beside it, so that the label is a part of it (`InText`) and may be entered after so many others (`Enterable`) is no
// invariant of a label, and each function asks for what it needs.

// A label's start, length and address are below 2^21. What an entry holds above them counts in units of it.
const FIELD: usize = 2097152;

// The upper one of two child numbers counts in units of this.
const UPPER: usize = FIELD * FIELD;

// The upper 32 bits of a number of 64 count in units of this.
const HALF_WORD: u64 = 4294967296;

// How many branches there are: each is two path bits.
const BRANCHES: u64 = 4;

#[derive(Clone, Copy)]
pub(crate) struct Digest {
    pub(crate) first: u64,
    pub(crate) second: u64,
}

// The 1 after the last path bit of a hash, of which 62 are used.
const PATH_END: u64 = 4611686018427387904;

// The 1 after the last path bit of a byte.
const BYTE_END: u64 = 256;

// The path bits of a spelling, two for each child that it takes: `bits`, with a 1 after the last, then `rest`, then those of its bytes, of
// which `used` have been used up.
#[derive(Clone, Copy)]
pub(crate) struct PathBits {
    pub(crate) bits: u64,
    pub(crate) rest: Option<u64>,
    pub(crate) used: usize,
}

// The place of the entry that gets a label as its child, and this entry with the child.
#[derive(Clone, Copy)]
pub(crate) struct Parent {
    pub(crate) place: usize,
    pub(crate) entry: Label,
}

// The state of a search. It is to visit an entry; or it has ended, at an entry of the spelling or after all entries of its path, where the
// label would get a parent, or become a root. These are three states, so neither an `Option` nor a `Result` has them.
#[derive(Clone, Copy)]
pub(crate) enum Stage {
    At(usize),
    Known(usize),
    Missing(Option<Parent>),
}

// A search for a spelling, from the root of its hash bucket on: the part of the source at `start`, of `length` bytes. An entry of it holds
// `key` for its length. Its label would be entered after `count` others.
#[derive(Clone, Copy)]
pub(crate) struct Search {
    pub(crate) bucket: usize,
    pub(crate) stage: Stage,
    pub(crate) path: PathBits,
    pub(crate) count: usize,
    pub(crate) start: usize,
    pub(crate) length: usize,
    pub(crate) key: usize,
}

// The label of an entry.
pub(crate) fn plain(entry: Label) -> Label
    ensures { result ≡ plain_of entry }
{
    Label {
        start: entry.start % FIELD,
        length: entry.length % FIELD,
        address: entry.address % FIELD as u64,
    }
}

// One of the two child numbers that are packed above a part of an entry: the upper one for an odd branch. A branch is two path bits, 0 to
// 3, and no enum, since each of the bits is a choice of its own: of the part, and of the number in it.
#[tactic(auto, unfolding(crate::specs::Tree::child_number))]
fn child_number(part: usize, branch: u64) -> usize
    ensures { result ≡ child_number part branch }
{
    if branch % 2 == 1 {
        return part / UPPER;
    }
    part / FIELD % FIELD
}

// The place before a number. Where there is no room for an `Option`, in the 21 bits of a child and the 32 of a root, the number after a
// place is stored for it, and 0 for none.
fn place_before(number: usize) -> Option<usize>
    ensures { result ≡ before number }
{
    number.checked_sub(1)
}

// The number that is stored for a place (`place_before`).
fn number_of_place(place: usize) -> usize
    requires { place ≤ 1048576 }
    ensures { result ≡ place + 1 }
{
    place + 1
}

// The child of an entry at a branch. Both parts are looked at, so that the processor need not guess which.
#[tactic(auto, unfolding(crate::specs::Tree::link_number))]
fn link(entry: Label, branch: u64) -> Option<usize>
    ensures { result ≡ link_of entry branch }
{
    let by_start = child_number(entry.start, branch);
    let by_address = child_number(entry.address as usize, branch);
    if branch < 2 {
        return place_before(by_start);
    }
    place_before(by_address)
}

// A child number, which has 21 bits (`place_before`), moved up to where it is packed.
#[tactic(auto, unfolding(crate::specs::Tree::child_bits))]
fn child_bits(to: usize, branch: u64) -> usize
    requires { to < 2097152 }
    ensures { result ≡ child_bits to branch }
{
    if branch % 2 == 1 {
        return UPPER * to;
    }
    FIELD * to
}

// An entry with a child at a branch where it had none.
#[tactic(auto, unfolding(crate::specs::Tree::linked))]
fn linked(entry: Label, branch: u64, to: usize) -> Label
    requires upper_start_fits { entry.start / 4398046511104 ≤ 1048576 }
    requires upper_address_fits { entry.address / 4398046511104 ≤ 1048576 }
    requires child_fits { to < 2097152 }
    ensures { result ≡ linkedOf entry branch to }
{
    let more = child_bits(to, branch);
    if branch < 2 {
        return Label {
            start: entry.start + more,
            ..entry
        };
    }
    Label {
        address: entry.address + more as u64,
        ..entry
    }
}

// A hash with up to three bytes more, as one number. Its two numbers are mixed with one another; the bytes are added too, since a factor
// of 0 would lose them.
#[tactic(auto, unfolding(crate::specs::Tree::mixed))]
fn mix(hash: Digest, bytes: u64) -> Digest
    requires { bytes < 16777216 }
    ensures { result ≡ mixed hash bytes }
{
    let first = hash.first;
    let second = hash.second;
    Digest {
        first: first % HALF_WORD * (2654435761 + 89 * bytes) + (second / HALF_WORD + bytes),
        second: second % HALF_WORD * (2246822519 + 113 * bytes) + (first / HALF_WORD + bytes),
    }
}

// Three bytes as one number, the first byte lowest: the library has this for two bytes and for four.
#[tactic(auto, unfolding(crate::specs::Tree::packed_bytes))]
fn pack_bytes(bytes: [u8; 3]) -> u64
    ensures value { result ≡ packed_bytes bytes }
    ensures bound { result < 16777216 }
{
    u64::from(bytes[0]) + 256 * u64::from(bytes[1]) + 65536 * u64::from(bytes[2])
}

// The part of the source at `start`, of `length` bytes.
fn part(source: &[u8], start: usize, length: usize) -> &[u8]
    requires { InText source.now (span start «length») }
    ensures { result.now ≡ spelled source.now (span start «length») }
{
    &source[start..start + length]
}

// The hash of a part of the source.
fn hash(source: &[u8], start: usize, length: usize) -> Digest
    requires { InText source.now (span start «length») }
    ensures { result ≡ hash_of (spelled source.now (span start «length»)) }
{
    let (chunks, rest) = part(source, start, length).as_chunks::<3>();
    let mut hash = Digest {
        first: 11400714819323198485,
        second: 13787848793156543929,
    };
    for chunk in chunks {
        hash = mix(hash, pack_bytes(*chunk));
    }
    for byte in rest {
        hash = mix(hash, u64::from(*byte));
    }
    // The last bytes reach the lowest bits by this, which choose the first branches.
    mix(hash, 0)
}

// Advances to the next two path bits of a part of the source.
#[tactic(auto, unfolding(crate::specs::Tree::advanced))]
fn advance(source: &[u8], start: usize, length: usize, path: PathBits) -> PathBits
    requires { InText source.now (span start «length») }
    ensures { result ≡ advanced (spelled source.now (span start «length»)) path }
{
    let bits = path.bits / BRANCHES;
    let rest = path.rest;
    let used = path.used;
    if 1 < bits {
        return PathBits { bits, rest, used };
    }
    if let Some(bits) = rest {
        return PathBits {
            bits,
            rest: None,
            used,
        };
    }
    if length <= used {
        return PathBits {
            bits: BYTE_END,
            rest: None,
            used,
        };
    }
    let at = start + used;
    PathBits {
        bits: BYTE_END + u64::from(source[at]),
        rest: None,
        used: used + 1,
    }
}

// Whether an entry is of the spelling at a part of the source, given what an entry of this spelling holds for its length. This is no
// equality of labels: each has a place in the source, children and an address of its own.
#[tactic(auto, unfolding(crate::specs::Tree::hits))]
fn hits(source: &[u8], entry: Label, key: usize, start: usize, length: usize) -> bool
    requires entry_in_text { InText source.now (plain_of entry) }
    requires part_in_text { InText source.now (span start «length») }
    requires length_in_key { key % 2097152 ≡ «length» }
    ensures { result ≡ hitsOf source.now entry key (spelled source.now (span start «length»)) }
{
    if entry.length != key {
        return false;
    }
    // The entry's spelling has `length` bytes too, since the key holds them.
    let own = part(source, plain(entry).start, length);
    text_lexical::bytes::same(own, part(source, start, length))
}

// The place of a hash among so many: 32 bits of it, in proportion.
#[tactic(auto, unfolding(crate::specs::Tree::slot_of))]
fn slot(hash: Digest, places: usize) -> usize
    requires some_place { 0 < places }
    requires places_few { places ≤ 65536 }
    ensures value { result ≡ slot_of hash places }
    ensures below { result < places }
{
    (hash.first % HALF_WORD) as usize * places / HALF_WORD as usize
}

// The first state of a search: it is to visit the root of its bucket, if there is one.
fn first_stage(root: Option<usize>) -> Stage
    ensures { result ≡ first_stage_of root }
{
    match root {
        Some(place) => Stage::At(place),
        None => Stage::Missing(None),
    }
}

// A search for a part of the source as a label after `count` others, compiled in line as `label::Labels::find` is.
#[inline(always)]
pub(crate) fn begin(
    source: &[u8],
    roots: &[u32],
    count: usize,
    start: usize,
    length: usize,
) -> Search
    requires enterable { Enterable source.now count (span start «length») }
    requires rootable { Rootable roots.now }
    ensures { result ≡ begun source.now roots.now count (span start «length») }
{
    let hash = hash(source, start, length);
    let second = hash.second;
    let path = PathBits {
        bits: PATH_END + hash.first % PATH_END,
        rest: Some(PATH_END + second % PATH_END),
        used: 0,
    };
    let bucket = slot(hash, roots.len());
    Search {
        bucket,
        stage: first_stage(place_before(roots[bucket] as usize)),
        path,
        count,
        start,
        length,
        key: length + FIELD * (second as usize / FIELD),
    }
}

// A bucket gets a root: the label that is entered after `count` others. The roots are lent, as the table is.
pub(crate) fn set_root(roots: &mut [u32], bucket: usize, count: usize)
    requires bucket_in_roots { bucket < length roots.old }
    requires count_fits { count ≤ 1048576 }
    ensures { roots.new ≡ set roots.old bucket (count + 1) }
{
    roots[bucket] = number_of_place(count) as u32;
}

// The search after the entry at a place.
#[tactic(auto, unfolding(crate::specs::Tree::visited, crate::specs::Tree::branch_of))]
pub(crate) fn visit(source: &[u8], search: Search, at: usize, entry: Label) -> Search
    requires { Visitable source.now search entry }
    ensures { result ≡ visited source.now search at entry }
{
    let start = search.start;
    let length = search.length;
    let path = search.path;
    if hits(source, entry, search.key, start, length) {
        return Search {
            stage: Stage::Known(at),
            ..search
        };
    }
    let branch = path.bits % BRANCHES;
    match link(entry, branch) {
        Some(child) => Search {
            stage: Stage::At(child),
            path: advance(source, start, length, path),
            ..search
        },
        None => {
            let parent = Parent {
                place: at,
                entry: linked(entry, branch, number_of_place(search.count)),
            };
            Search {
                stage: Stage::Missing(Some(parent)),
                ..search
            }
        }
    }
}

// What a search that has ended comes to.
#[tactic(auto, unfolding(crate::specs::Tree::found_of))]
pub(crate) fn found(search: Search) -> Result<usize, Gap>
    ensures { result ≡ found_of search }
{
    let parent = match search.stage {
        Stage::Known(at) => return Ok(at),
        // It is asked of no search that is still to visit an entry.
        Stage::At(_) => None,
        Stage::Missing(parent) => parent,
    };
    Err(Gap {
        bucket: search.bucket,
        key: search.key,
        parent,
    })
}
