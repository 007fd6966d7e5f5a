// Buffers that are lent in part, around which nothing may change.
ghost use Rattle.std.specs.Prelude.{◌≡◌, ◌≤◌, length, take};
ghost use Rattle.test_vectors.specs.Rooms.{filler_at, buffer_byte, holds_bytes};

// What stands at a place of a buffer before it is lent: no byte of a text, and none that is the same at each place.
#[tactic(auto, unfolding(crate::specs::Rooms::filler_at))]
fn filler(at: usize) -> u8
    ensures { result ≡ filler_at at }
{
    128 + (at % 127) as u8
}

// How many bytes are looked at: what is lent, and the 64 after it.
pub(crate) fn guarded(lent: usize) -> usize {
    lent.saturating_add(64)
}

// How many bytes the part of a buffer takes that has `count` of them, if it has so many. The second promise follows from the
// first, and is what `&room[..n]` asks for.
pub(crate) fn part(room: &[u8], count: usize) -> usize
    ensures in_room { result ≤ length room.now }
    ensures slice_end { result ≡ length (take result room.now) }
{
    count.min(room.len())
}

// Fills the first `count` bytes. The count may be larger than the room, so it is no part of it.
pub(crate) fn fill(room: &mut [u8], count: usize) {
    for (i, byte) in room.iter_mut().enumerate().take(count) {
        *byte = filler(i);
    }
}

// What has to stand at a place of a buffer that has these bytes and is as it was filled after them.
#[tactic(auto, unfolding(crate::specs::Rooms::buffer_byte))]
fn wanted_at(bytes: &[u8], i: usize) -> u8
    ensures { result ≡ buffer_byte bytes.now i }
{
    bytes.get(i).copied().unwrap_or_else(|| filler(i))
}

// Whether a buffer has these bytes, and then what it was filled with, up to `count`. No one slice has both parts to compare with.
#[tactic(auto, unfolding(crate::specs::Rooms::holds_bytes))]
pub(crate) fn holds(room: &[u8], bytes: &[u8], count: usize) -> bool
    ensures { result ≡ holds_bytes room.now bytes.now count }
{
    if room.len() < count || count < bytes.len() {
        return false;
    }
    room[..count]
        .iter()
        .enumerate()
        .all(|(i, &byte)| byte == wanted_at(bytes, i))
}

// Keeps the beginning of a buffer in another. The count may be larger than either, so it is no part of them.
pub(crate) fn kept<'a>(from: &[u8], to: &'a mut [u8], count: usize) -> &'a [u8] {
    let n = count.min(from.len()).min(to.len());
    to[..n].copy_from_slice(&from[..n]);
    &to[..n]
}

// The line, from 1, on which a place of a source stands.
pub(crate) fn line_of(source: &[u8], place: usize) -> u64 {
    let ends = source
        .iter()
        .take(place)
        .filter(|&&byte| byte == b'\n')
        .count();
    (ends as u64).wrapping_add(1)
}
