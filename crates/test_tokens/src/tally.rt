// How much was compared: lines, those that differ, and tokens by kind.
ghost use Rattle.test_replay.specs.Report.{Put};
ghost use Rattle.test_tokens.specs.Tally.{tally_text};

use refusal::refusal::Refusal;
use test_replay::report::Report;
use test_replay::tally::more;
use text::lexer::Kind;
use text::parser::Line;

#[derive(Clone, Copy, Default)]
pub struct Tally {
    pub lines: u64,
    pub differences: u64,
    pub bad: u64,
    pub identifiers: u64,
    pub registers: u64,
    pub numbers: u64,
    pub negatives: u64,
    pub hexes: u64,
    pub binaries: u64,
    pub directives: u64,
    pub commas: u64,
    pub colons: u64,
    pub openings: u64,
    pub closings: u64,
}

impl Tally {
    fn with_token(mut self, kind: Kind) -> Tally {
        match kind {
            Kind::Identifier => self.identifiers = more(self.identifiers),
            Kind::Register(_) | Kind::NoRegister => self.registers = more(self.registers),
            Kind::Number(_) => self.numbers = more(self.numbers),
            Kind::Negative(_) => self.negatives = more(self.negatives),
            Kind::Hex(_) => self.hexes = more(self.hexes),
            Kind::Binary(_) => self.binaries = more(self.binaries),
            Kind::Directive => self.directives = more(self.directives),
            Kind::Comma => self.commas = more(self.commas),
            Kind::Colon => self.colons = more(self.colons),
            Kind::LParen => self.openings = more(self.openings),
            Kind::RParen => self.closings = more(self.closings),
        }
        self
    }

    // The tokens that a line keeps.
    fn with_tokens(self, line: Line) -> Tally {
        let mut tally = self;
        for token in line.tokens.iter().take(line.count) {
            tally = tally.with_token(token.kind);
        }
        tally
    }

    // One line more. Whether it agrees is no part of what is read: what a line that differs is read as is counted too.
    pub(crate) fn with_line(mut self, read: Result<Line, Refusal>, agrees: bool) -> Tally {
        self.lines = more(self.lines);
        if !agrees {
            self.differences = more(self.differences);
        }
        match read {
            Ok(line) => self.with_tokens(line),
            Err(_) => {
                self.bad = more(self.bad);
                self
            }
        }
    }

    // Puts the counts.
    pub(crate) fn put(self, report: &mut Report)
        ensures { Put report.old (tally_text self) report.new }
    {
        let counts = [
            self.lines,
            self.differences,
            self.bad,
            self.identifiers,
            self.registers,
            self.numbers,
            self.negatives,
            self.hexes,
            self.binaries,
            self.directives,
            self.commas,
            self.colons,
            self.openings,
            self.closings,
        ];
        report.put_filled(
            b"# lines, # differences\n# bad lines\n# identifiers\n# registers\n# numbers\n# negative numbers\n\
              # hex numbers\n# binary numbers\n# directives\n# commas\n# colons\n# opening parentheses\n# closing parentheses\n",
            &counts,
        );
    }
}
