// Assembling: the first walk enters the labels; the second writes the image, and runs once before that, as a check, if an instruction names one.
ghost use Rattle.std.specs.Prelude.{◌≡◌};
ghost use Rattle.text_lexical.specs.Names.{present};
ghost use Rattle.image_labels.specs.Tree.{Bare};
ghost use Rattle.image_assembler.specs.Promised.{Finishable, Finishes, Starts, Walks, Resolves, Assembles};

use image::config::Config;
use image_labels::label::{Label, Labels};
use image_passes::first_pass::{Next, Pass, Verdict};
use refusal::refusal::Refusal;

// What a source has been assembled to. The labels are those that have been entered into the table.
#[derive(Clone, Copy)]
pub struct Assembled {
    pub words: usize,
    pub labels: usize,
    pub config: Config,
}

// Why there is no image, and the labels that have been entered nevertheless: the error of a `Result`, whose two cases say different things.
// A refusal and its lines stand one by one, as C has them.
#[derive(Clone, Copy)]
pub enum AssembleError {
    Refused {
        refusal: Refusal,
        rust_line: usize,
        line: usize,
        labels: usize,
    },
    // The image buffer is too short; the length that is needed.
    TooShort {
        labels: usize,
        needed: usize,
    },
}

// What a source that was read comes to, with its labels entered: its refusal, or the image.
fn finish(labels: &Labels, image: &mut [u8], verdict: Verdict) -> Result<Assembled, AssembleError>
    requires { Finishable present labels.now verdict }
    ensures { Finishes present labels.now image.old image.new result verdict }
{
    let count = labels.count;
    let found = verdict.map_err(|stopped| AssembleError::Refused {
        refusal: stopped.refusal,
        rust_line: stopped.rust_line,
        line: stopped.line,
        labels: count,
    })?;
    image_passes::second_pass::write_image(labels, image, found).map_err(|short| {
        AssembleError::TooShort {
            labels: count,
            needed: short.needed,
        }
    })?;
    Ok(Assembled {
        words: found.words,
        labels: count,
        config: found.config,
    })
}

// The first walk over a source. Its labels are entered, and stay linked.
fn walk(labels: &mut Labels) -> Verdict
    requires { Starts labels.old }
    ensures { Walks present labels.old labels.new result }
{
    let source = labels.source;
    let mut cursor = image_passes::first_pass::begin(source)?;
    // each turn decides what is next, so there is nothing to walk over
    loop {
        match image_passes::first_pass::read_on(source, cursor) {
            Pass::Ended(verdict) => return verdict,
            Pass::AtLabel(at) => {
                let entered = labels.enter(at.label);
                match image_passes::first_pass::go_on(source, at, entered) {
                    Next::Ended(verdict) => return verdict,
                    Next::From(next) => cursor = next,
                }
            }
        }
    }
}

// Reads a source: all its lines, and then the labels that they name. It answers all refusals but 1, which `assemble` asks first, and
// 23, and wants no image buffer. The labels stay linked.
fn resolve(labels: &mut Labels) -> Verdict
    requires { Starts labels.old }
    ensures { Resolves present labels.old labels.new result }
{
    let found = walk(labels)?;
    if found.targets {
        image_passes::second_pass::check_targets(labels)?;
    }
    Ok(found)
}

// How many hash buckets labels have: few labels of an ordinary source share one, and clearing them takes less time than reading 1 KB.
const BUCKETS: usize = 4096;

// Empty buckets.
fn empty_roots() -> [u32; BUCKETS]
    ensures { Bare result }
{
    [0; BUCKETS]
}

// The image of a source, and its labels. A source that is too long is refused before any bucket is cleared. The links by which labels
// are found are taken out of the table at the end, whatever the answer. What is lent is passed one by one, as a caller in C lends it.
pub fn assemble(
    source: &[u8],
    table: &mut [Label],
    image: &mut [u8],
) -> Result<Assembled, AssembleError>
    ensures { Assembles present source.now table.old image.old table.new image.new result }
{
    if image_passes::first_pass::too_long(source) {
        // no line is at fault
        return Err(AssembleError::Refused {
            refusal: Refusal::SourceTooLong,
            rust_line: 0,
            line: 0,
            labels: 0,
        });
    }
    let mut roots = empty_roots();
    let mut labels = Labels {
        source,
        table,
        roots: &mut roots,
        count: 0,
    };
    let verdict = resolve(&mut labels);
    let assembled = finish(&labels, image, verdict);
    labels.unlink();
    assembled
}
