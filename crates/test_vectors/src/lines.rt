// Lines of a record: their numbers, and the labels. Nothing here calls a crate under test.
ghost use Rattle.std.specs.Prelude.{◌≡◌};
ghost use Rattle.test_vectors.specs.Tables.{label_at, label_end};

use image_labels::label::Label;
use test_replay::cursor::Cursor;

// Reads the numbers of a line, if the line has this tag. Tags are bytes, as the list has them: an enum of them would be turned into bytes here.
pub(crate) fn numbers<const N: usize>(cursor: &mut Cursor, tag: u8) -> Option<[u64; N]> {
    if !cursor.has_tag(tag) {
        return None;
    }
    cursor.skip(2);
    let mut numbers = [0; N];
    for number in &mut numbers {
        *number = cursor.number();
    }
    Some(numbers)
}

// Reads the number of a line, if the line has this tag.
pub(crate) fn number(cursor: &mut Cursor, tag: u8) -> Option<u64> {
    let [number] = numbers::<1>(cursor, tag)?;
    Some(number)
}

// Reads `l START LENGTH ADDRESS`.
#[tactic(auto, unfolding(crate::specs::Tables::label_at, crate::specs::Tables::label_end))]
pub(crate) fn label(cursor: &mut Cursor) -> Label
    ensures value { result ≡ label_at cursor.old.list.now cursor.old.at }
    ensures place { cursor.new ≡ record { list = cursor.old.list; at = label_end cursor.old.list.now cursor.old.at } }
{
    cursor.skip(2);
    let start = cursor.number() as usize;
    let length = cursor.number() as usize;
    let address = cursor.number();
    Label {
        start,
        length,
        address,
    }
}

// Skips so many labels, or all if there are fewer.
pub(crate) fn skip_labels(cursor: &mut Cursor, count: u64) {
    for _ in 0..count {
        if !cursor.has_tag(b'l') {
            break;
        }
        label(cursor);
    }
}
