// Labels are entered from the front of a lent slice and found by their spelling.
ghost use Rattle.std.specs.Prelude.{◌≡◌, ◌≤◌, length, set, take};
ghost use Rattle.image_labels.specs.Promised.{spelled, address_at, address_meant, room_for, count_after, Enters};
ghost use Rattle.image_labels.specs.Tree.{unlinked, span, Tree, Linked, TreeAfter, Enterable, Finding, SameLent};

use crate::tree::{Parent, Stage};
use refusal::refusal::Refusal;

// Where a label's spelling stands in the source, two numbers as document 01 names that form and as C has it, and its address.
#[repr(C)]
#[derive(Clone, Copy, PartialEq)]
pub struct Label {
    pub start: usize,
    pub length: usize,
    pub address: u64,
}

// Where a label that is not there would be entered: its bucket, what its entry holds for its length (`key`), and its parent, if it would not
// become a root.
#[derive(Clone, Copy)]
pub struct Gap {
    pub(crate) bucket: usize,
    pub(crate) key: usize,
    pub(crate) parent: Option<Parent>,
}

// The index of the label that is spelled as a part of the source, among the first `count` entries of a table, or where it would be entered.
// This is `Labels::find` on the parts of a `Labels`, for whoever is lent them apart: table and roots are shared here, since nothing is changed.
// The part of the source is given by two numbers, since a label would be passed through memory; it is compiled in line for the same reason.
#[inline(always)]
pub fn find(
    source: &[u8],
    table: &[Label],
    roots: &[u32],
    count: usize,
    start: usize,
    length: usize,
) -> Result<usize, Gap>
    requires tree { Tree source.now table.now roots.now count }
    requires enterable { Enterable source.now count (span start «length») }
    ensures { Finding source.now table.now roots.now count start «length» result }
{
    let mut search = crate::tree::begin(source, roots, count, start, length);
    // each entry leads to the next, so there is nothing to walk over
    while let Stage::At(at) = search.stage {
        search = crate::tree::visit(source, search, at, table[at]);
    }
    crate::tree::found(search)
}

// The labels of a source that have been entered: the first `count` entries of a lent table, which are linked into trees, and their roots. The
// table is lent whole, so how much of it is used is a number.
#[derive(Drop)]
pub struct Labels<'a> {
    pub source: &'a [u8],
    pub table: &'a mut [Label],
    pub roots: &'a mut [u32],
    pub count: usize,
}

impl Labels<'_> {
    // The index of the label that is spelled as a part of the source, or where it would be entered: the thin find that document 01 names, and
    // therefore public, though only the methods below ask it. It is told to be compiled in line in both of them, with what it is made of: a call
    // would hand its answer on through memory, for which nothing but labels takes 8 to 13 in 100 longer.
    #[inline(always)]
    pub fn find(&self, start: usize, length: usize) -> Result<usize, Gap>
        requires tree { Linked self.now }
        requires enterable { Enterable self.now.source.now self.now.count (span start «length») }
        ensures { Finding self.now.source.now self.now.table.now self.now.roots.now self.now.count start «length» result }
    {
        find(
            self.source,
            self.table,
            self.roots,
            self.count,
            start,
            length,
        )
    }

    // The address of the label that is spelled as a part of the source, if it has been entered. It is told to be a call: an instruction without
    // a label is then read past it in line, and nothing but `ecall` takes 7 in 100 less.
    #[inline(never)]
    pub fn address_of(&self, start: usize, length: usize) -> Option<u64>
        requires tree { Linked self.now }
        requires enterable { Enterable self.now.source.now self.now.count (span start «length») }
        ensures { address_meant result ≡ address_at self.now.source.now (take self.now.count (unlinked self.now.count self.now.table.now)) (spelled self.now.source.now (span start «length»)) }
    {
        let Ok(place) = self.find(start, length) else {
            return None;
        };
        Some(crate::tree::plain(self.table[place]).address)
    }

    // Enters a label. It is refused as a duplicate or for want of room, and then leaves everything as it was.
    pub fn enter(&mut self, label: Label) -> Result<(), Refusal>
        requires tree { Linked self.old }
        requires enterable { Enterable self.old.source.now self.old.count label }
        ensures enters { Enters self.old.source.now (unlinked self.old.count self.old.table.now) self.old.count label (unlinked self.new.count self.new.table.now) result }
        ensures tree_after { TreeAfter self.old.source.now self.old.table.now self.old.roots.now self.old.count label self.new.table.now self.new.roots.now result }
        ensures counted { self.new.count ≡ count_after self.old.count result }
        ensures lent { SameLent self.old self.new }
    {
        let Err(gap) = self.find(label.start, label.length) else {
            return Err(Refusal::DuplicateLabel);
        };
        let entry = Label {
            length: gap.key,
            ..label
        };
        let place = self.count;
        append(self.table, place, entry)?;
        self.count += 1;
        match gap.parent {
            Some(parent) => self.table[parent.place] = parent.entry,
            None => crate::tree::set_root(self.roots, gap.bucket, place),
        }
        Ok(())
    }

    // The entries are left as labels.
    pub fn unlink(&mut self)
        requires { self.old.count ≤ length self.old.table.now }
        ensures table { self.new.table.now ≡ unlinked self.old.count self.old.table.now }
        ensures roots { self.new.roots.now ≡ self.old.roots.now }
        ensures counted { self.new.count ≡ self.old.count }
        ensures lent { SameLent self.old self.new }
    {
        for entry in &mut self.table[..self.count] {
            *entry = crate::tree::plain(*entry);
        }
        // the roots stay as they are, since no label is looked up any more
    }
}

// An entry stored at a place, where there is room: the thin append that document 01 names.
fn append(table: &mut [Label], at: usize, entry: Label) -> Result<(), Refusal>
    ensures value { result ≡ room_for at table.old }
    ensures stored { table.new ≡ set table.old at entry }
{
    if table.len() <= at {
        return Err(Refusal::TableFull);
    }
    table[at] = entry;
    Ok(())
}
