// Counts of what was compared.
ghost use Rattle.std.specs.Prelude.{◌≡◌, replicate};
ghost use Rattle.test_replay.specs.Tally.{one_more, counted, agreed, nothing_tallied, tallied, tally_text};
ghost use Rattle.test_replay.specs.Report.{refusals_text, Put};

use crate::report::Report;

// No run counts to 2^64.
pub fn more(n: u64) -> u64
    ensures { result ≡ one_more n }
{
    n.wrapping_add(1)
}

// How often each refusal was met, by its number in the list.
#[derive(Drop)]
pub struct Refusals {
    pub counts: [u64; 36],
}

impl Refusals {
    pub fn new() -> Refusals
        ensures { result ≡ record { counts = replicate 36 0 } }
    {
        Refusals { counts: [0u64; 36] }
    }

    // One refusal more.
    #[tactic(auto, unfolding(crate::specs::Tally::counted))]
    pub fn count(&mut self, number: u64)
        ensures { self.new ≡ record { counts = counted self.old.counts number } }
    {
        let at = number as usize;
        if at < self.counts.len() {
            self.counts[at] = more(self.counts[at]);
        }
    }

    // Puts a line for each refusal that was met.
    pub fn put(&self, report: &mut Report)
        ensures { Put report.old (refusals_text self.now.counts) report.new }
    {
        for (number, &count) in self.counts.iter().enumerate() {
            if 0 < count {
                report.put_filled(b"# refused by #\n", &[count, number as u64]);
            }
        }
    }
}

// What comparing a record gave: it differs, or it agrees in what is assembled, in what is listed, or in a refusal, by the list's own number for
// it. Four outcomes, each counted by itself, so this is no `Option`.
#[derive(Clone, Copy)]
pub enum Outcome {
    Differs,
    Assembled,
    Listed,
    Refused(u64),
}

// Whether a record agrees. It is an equation, as a comparison by the enum's variants in the programs would not be.
#[tactic(auto, unfolding(crate::specs::Tally::agreed))]
pub fn agrees(outcome: Outcome) -> bool
    ensures { result ≡ agreed outcome }
{
    !matches!(outcome, Outcome::Differs)
}

// How much was compared: records, those that differ, and of the others what was answered.
#[derive(Drop)]
pub struct Tally {
    pub records: u64,
    pub differences: u64,
    pub assembled: u64,
    pub listed: u64,
    pub refusals: Refusals,
}

impl Tally {
    // Nothing is counted as yet.
    pub fn new() -> Tally
        ensures { result ≡ nothing_tallied }
    {
        Tally {
            records: 0,
            differences: 0,
            assembled: 0,
            listed: 0,
            refusals: Refusals::new(),
        }
    }

    // One record more.
    #[tactic(auto, unfolding(crate::specs::Tally::tallied))]
    pub fn count(&mut self, outcome: Outcome)
        ensures { self.new ≡ tallied self.old outcome }
    {
        self.records = more(self.records);
        match outcome {
            Outcome::Differs => self.differences = more(self.differences),
            Outcome::Assembled => self.assembled = more(self.assembled),
            Outcome::Listed => self.listed = more(self.listed),
            Outcome::Refused(number) => self.refusals.count(number),
        }
    }

    // Puts the counts: a text of the program's own, filled with the first four, and the lines of the refusals.
    pub fn put(&self, text: &[u8], report: &mut Report)
        ensures { Put report.old (tally_text text.now self.now) report.new }
    {
        let counts = [self.records, self.differences, self.assembled, self.listed];
        report.put_filled(text, &counts);
        self.refusals.put(report);
    }
}
