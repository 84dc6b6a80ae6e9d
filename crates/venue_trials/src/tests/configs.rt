//! The config of the trials of venues.
ghost use Rattle.std.specs.Prelude.{◌≡◌, length, IfOk};
ghost use Rattle.venue_words.specs.Conditions.{IsConfig};

use script_text::read_header;
use std::alloc::Global;
use venue_words::{Config, NoMemory};

/// The most bytes of a config's text.
const MAX_TEXT: usize = 1000;

// The config of a text, if it has four members, one market and three symbols.
fn config_in(alloc: Global, text: &[u8]) -> Result<Config, NoMemory>
    ensures config { IfOk result IsConfig }
    ensures members { IfOk result (λ config. length config.members ≡ 4) }
    ensures markets { IfOk result (λ config. length config.markets ≡ 1) }
    ensures symbols { IfOk result (λ config. length config.limits ≡ 3) }
{
    if text.len() > MAX_TEXT {
        return Err(NoMemory);
    }
    let Ok((config, _)) = read_header(alloc, text) else {
        return Err(NoMemory);
    };
    if config.members.len() == 4 && config.markets.len() == 1 && config.limits.len() == 3 {
        Ok(config)
    } else {
        Err(NoMemory)
    }
}

// A config of four members, one market and three symbols with the same limit, of which the second has a tick of 0.05.
pub fn config_of(alloc: Global, limit: u32) -> Result<Config, NoMemory>
    ensures config { IfOk result IsConfig }
    ensures members { IfOk result (λ config. length config.members ≡ 4) }
    ensures markets { IfOk result (λ config. length config.markets ≡ 1) }
    ensures symbols { IfOk result (λ config. length config.limits ≡ 3) }
{
    let text = format!(in alloc;
        "PEGV 2\nMEMBER A\nMEMBER B\nMEMBER C\nMEMBER D\nMARKET N\nSYMBOL X {limit} 0.01\nSYMBOL Y {limit} 0.05\nSYMBOL Z {limit} 0.01\nBEGIN 19700101-00:00:00.000\n"
    )?;
    config_in(alloc, text.as_bytes())
}
