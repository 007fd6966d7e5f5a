// Replaying a list: each of its records is compared, and the report names those that differ, and then counts.
ghost use Rattle.std.specs.Prelude.{◌≡◌, ℕ, List};
ghost use Rattle.test_replay.specs.Report.{Put, EndsWith};

use crate::cursor::Cursor;
use crate::list::next_record;
use crate::report::Report;
use crate::tally::more;

// How a program compares records, and what it has counted.
pub trait Replay {
    // The text of the counts.
    ghost text: { Self → List ℕ };

    // Compares the record at a place and counts it; answers whether it agrees.
    fn agrees(&mut self, place: Cursor) -> bool;

    // Puts the counts.
    fn put_counts(&self, report: &mut Report)
        ensures { Put report.old (text self.now) report.new };
}

// Compares each record of a list, and puts the report: the number of each record that differs, counted from 1, and at last the counts. That
// its text stands within its room is of the report's type.
pub fn compare<R: Replay>(replay: &mut R, list: &[u8], report: &mut Report)
    ensures counts { EndsWith (R.text replay.new) report.new }
    ensures same_room { report.new.room.ghost_name ≡ report.old.room.ghost_name }
{
    let mut records = 0;
    let mut at = 0;
    // where a record ends is found by reading, so no range gives the places
    while at < list.len() {
        at = next_record(list, at);
        if at < list.len() {
            records = more(records);
            if !replay.agrees(Cursor { list, at }) {
                report.put_difference(records);
            }
        }
    }
    replay.put_counts(report);
}
