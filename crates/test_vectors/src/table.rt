// The label table that is lent, and whether it then has the list's labels.
ghost use Rattle.std.specs.Prelude.{◌≡◌};
ghost use Rattle.test_vectors.specs.Tables.{blank, same_labels};

use crate::lines::label;
use image_labels::label::Label;
use test_replay::cursor::Cursor;

// How many entries the table has; eight of them are never lent.
pub(crate) const ENTRIES: usize = 1032;

// What stands in an entry of the table before it is lent: no start, length or address of a label.
fn blank() -> Label
    ensures { result ≡ blank }
{
    Label {
        start: 0xA5A5A5A5A5A5A5A5,
        length: 0xA5A5A5A5A5A5A5A5,
        address: 0xA5A5A5A5A5A5A5A5,
    }
}

pub(crate) fn blank_table() -> [Label; 1032] {
    [blank(); 1032]
}

// Whether the table has the first `count` labels of the list from a place on, and nothing else was entered.
#[tactic(auto, using(crate::proofs::Tables::labels_none))]
pub(crate) fn has_labels(table: &[Label], labels: Cursor, count: u64) -> bool
    ensures { result ≡ same_labels count table.now labels.entry.list.now labels.entry.at }
{
    let mut cursor = labels;
    // a label stands where the one before it ends, so a chain's closure would change the cursor, and nothing be known of what it answers
    for (i, &held) in table.iter().enumerate() {
        let wanted = if (i as u64) < count {
            label(&mut cursor)
        } else {
            blank()
        };
        if held != wanted {
            return false;
        }
    }
    true
}
