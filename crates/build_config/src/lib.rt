// build_config: how a message is built, in one value that every reader hands on whole. A new mode or setting is one more field of it.
// It decides nothing: what a setting means is said where it is asked.
#![tactic(auto)]

ghost use Rattle.std.specs.Prelude.{◌≡◌};
ghost use Rattle.build_config.specs.Settings.{validates, config_of};

use field_rules::Mode;

// How fields are read, and whether unknown user-defined tags are refused.
#[derive(Clone, Copy)]
pub struct Config {
    pub mode: Mode,
    pub validate: bool,
}

// Bit 0 of a settings word.
fn validates(settings: u32) -> bool
    ensures { result ≡ validates settings }
{
    settings % 2 == 1
}

// What a caller's settings word asks for. The bits that mean nothing are passed over, so every word is one.
pub fn config_of(settings: u32, separator: u8) -> Config
    ensures { result ≡ config_of settings separator }
{
    let mode = field_tagvalue::separated_by(separator);
    let validate = validates(settings);
    Config { mode, validate }
}
