// A line by the record of its tokens: what it is, and what it reads as. `Recorded` is about a record and the source that is lent beside it, so
// it is no invariant of either, and each function asks for it. A struct of both would be taken apart again for `parse_instruction` and
// `parse_config`, which are lent the two apart.
ghost use Rattle.std.specs.Prelude.{◌≡◌, ◌≤◌, length};
ghost use Rattle.text_lexical.specs.Names.{present};
ghost use Rattle.text.specs.Promised.{firsts};
ghost use Rattle.instruction.specs.Operands.{read_instruction, behind};
ghost use Rattle.image.specs.Settings.{configured};
ghost use Rattle.instruction.specs.Kinds.{kind_of};
ghost use Rattle.image.specs.Assembling.{setting, coding, after_label};
ghost use Rattle.image.specs.Promised.{record_meant, settings_meant};
ghost use Rattle.text.specs.Places.{StartsAt};
ghost use Rattle.image_line.specs.Promised.{Recorded, kind_meant, context_for, EffectIs, LineIs};

use crate::line::{Effect, Read};
use image::config::Config;
use refusal::refusal::Refusal;
use text::lexer::Kind;
use text::parser::Line;

#[derive(Clone, Copy)]
enum LineKind {
    Empty,
    Label,
    Config,
    Ignored,
    Plain,
}

#[tactic(auto, using(crate::proofs::Records::kind_none, crate::proofs::Records::kind_alone, crate::proofs::Records::kind_label, crate::proofs::Records::kind_second, crate::proofs::Records::kind_plain))]
fn line_kind(source: &[u8], line: &Line) -> LineKind
    requires { Recorded source.now line.now }
    ensures { kind_meant source.now line.now result ≡ kind_of (firsts source.now line.now.tokens line.now.count) }
{
    if line.count == 0 {
        return LineKind::Empty;
    }
    let first = line.tokens[0];
    match first.kind {
        Kind::Identifier => {
            if line.count < 2 {
                return LineKind::Plain;
            }
            match line.tokens[1].kind {
                Kind::Colon => LineKind::Label,
                _ => LineKind::Plain,
            }
        }
        Kind::Directive => {
            let name = &first.spelling(source)[1..]; // after the point, as a directive's name has it
            if text_lexical::bytes::same(name, b"config") {
                return LineKind::Config;
            }
            LineKind::Ignored
        }
        _ => LineKind::Plain,
    }
}

// The instruction that begins at a token of a line's record, or why there is none: at the first, or at the third after a label. A type for
// the two would say no more than the bound.
#[tactic(auto, unfolding(image::specs::Assembling::coding))]
fn read_instruction(source: &[u8], line: &Line, at: usize) -> Result<Effect, Refusal>
    requires recorded { Recorded source.now line.now }
    requires place_in_range { at ≤ 2 }
    ensures { EffectIs source.now line.now result (coding (read_instruction (behind at (record_meant source.now line.now)))) }
{
    let draft = instruction_operands::assembler::parse_instruction(source, line, at)?;
    Ok(Effect::Codes(draft))
}

// A `.config` line.
#[tactic(auto, unfolding(image::specs::Assembling::setting))]
fn read_config(source: &[u8], line: &Line, config: Config) -> Result<Effect, Refusal>
    requires { Recorded source.now line.now }
    ensures { EffectIs source.now line.now result (setting (configured (settings_meant config) (record_meant source.now line.now))) }
{
    let changed = image::config::parse_config(source, line, config)?;
    Ok(Effect::Sets(changed))
}

// What follows a label: nothing, or an instruction.
#[tactic(auto, using(crate::proofs::Records::after_none, crate::proofs::Records::after_some))]
fn after_label(source: &[u8], line: &Line) -> Result<Effect, Refusal>
    requires recorded { Recorded source.now line.now }
    requires two_tokens { 2 ≤ line.now.count }
    ensures { EffectIs source.now line.now result (after_label (behind 2 (record_meant source.now line.now))) }
{
    if line.count == 2 {
        return Ok(Effect::Nothing);
    }
    read_instruction(source, line, 2)
}

// The line whose content starts at `start`, by the record of its tokens.
#[tactic(auto, using(crate::proofs::Records::two_tokens))]
pub(crate) fn read_record(source: &[u8], start: usize, config: Config) -> Read
    requires { StartsAt source.now start }
    ensures { LineIs present source.now start (context_for config) result }
{
    match text::parser::tokenize(source, start) {
        Err(refusal) => Read {
            start,
            label: None,
            effect: Err(refusal),
            end: start,
        },
        Ok(line) => {
            let mut label = None;
            let effect = match line_kind(source, &line) {
                LineKind::Empty | LineKind::Ignored => Ok(Effect::Nothing),
                LineKind::Config => read_config(source, &line, config),
                LineKind::Label => {
                    // the first token stands where the content starts
                    label = Some(line.tokens[0].length);
                    after_label(source, &line)
                }
                LineKind::Plain => read_instruction(source, &line, 0),
            };
            Read {
                start,
                label,
                effect,
                end: line.end,
            }
        }
    }
}
