// The three settings: their checks, and the `.config` line.
ghost use Rattle.std.specs.Prelude.{◌≡◌};
ghost use Rattle.text_lexical.specs.Bytes.{value as good};
ghost use Rattle.refusal.specs.Refusals.{answered, fault_of};
ghost use Rattle.image.specs.Settings.{begin as initial, settings_fault, checked, set_field, configured};
ghost use Rattle.image.specs.Promised.{settings_meant, record_meant};
ghost use Rattle.text.specs.Promised.{Kept};

use refusal::refusal::Refusal;
use text::lexer::Kind;
use text::parser::Line;
use text_lexical::number::NumberRange;

// The numbers that a setting may be, before the checks of its own: they are those of a byte.
const SETTING: NumberRange = NumberRange {
    width: 8,
    signed: false,
};

#[derive(Clone, Copy)]
pub struct Config {
    pub limb_bits: u8,
    pub data_limbs: u8,
    pub addr_limbs: u8,
}

impl Config {
    // The settings before any line.
    #[tactic(auto, unfolding(crate::specs::Settings::begin))]
    pub fn begin() -> Config
        ensures { settings_meant result ≡ initial }
    {
        Config {
            limb_bits: 20,
            data_limbs: 2,
            addr_limbs: 2,
        }
    }

    // The first check that fails, if one does.
    #[tactic(auto, unfolding(crate::specs::Settings::settings, crate::specs::Settings::settings_fault))]
    pub(crate) fn validate(self) -> Result<(), Refusal>
        ensures { fault_of result ≡ settings_fault (settings_meant self) }
    {
        if !text_lexical::bytes::within(16, 30, self.limb_bits) {
            return Err(Refusal::LimbBitsRange);
        }
        if self.limb_bits % 2 != 0 {
            return Err(Refusal::LimbBitsOdd);
        }
        if !text_lexical::bytes::within(1, 4, self.data_limbs) {
            return Err(Refusal::DataLimbsRange);
        }
        if !text_lexical::bytes::within(1, 2, self.addr_limbs) {
            return Err(Refusal::AddrLimbsRange);
        }
        Ok(())
    }
}

// Settings, unless a check fails.
#[tactic(auto, unfolding(crate::specs::Settings::checked))]
fn validated(config: Config) -> Result<Config, Refusal>
    ensures { answered settings_meant result ≡ checked (good (settings_meant config)) }
{
    config.validate()?;
    Ok(config)
}

// The settings with the field of a key set, and checked.
fn set_field(config: Config, key: &[u8], value: u8) -> Result<Config, Refusal>
    ensures { answered settings_meant result ≡ checked (set_field (settings_meant config) key.now value) }
{
    if text_lexical::bytes::same(key, b"limb_bits") {
        return validated(Config {
            limb_bits: value,
            ..config
        });
    }
    if text_lexical::bytes::same(key, b"data_limbs") {
        return validated(Config {
            data_limbs: value,
            ..config
        });
    }
    if text_lexical::bytes::same(key, b"addr_limbs") {
        return validated(Config {
            addr_limbs: value,
            ..config
        });
    }
    Err(Refusal::UnknownKey)
}

// The settings after a `.config` line, with its field set.
pub fn parse_config(source: &[u8], line: &Line, config: Config) -> Result<Config, Refusal>
    requires { Kept source.now line.now }
    ensures { answered settings_meant result ≡ configured (settings_meant config) (record_meant source.now line.now) }
{
    if line.count != 3 {
        return Err(Refusal::ConfigTokens);
    }
    let key = line.tokens[1];
    let Kind::Identifier = key.kind else {
        return Err(Refusal::KeyExpected);
    };
    let value = line.tokens[2];
    let number = text::parser::extract_number(value.kind, SETTING)?;
    set_field(config, key.spelling(source), number.magnitude() as u8)
}
