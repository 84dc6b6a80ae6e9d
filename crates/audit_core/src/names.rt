//! Whether the names of a config can stand in the lines of a listing.
ghost use Rattle.std.specs.Prelude.{◌≡◌};
ghost use Rattle.script_text.specs.Lines.{has_end};
ghost use Rattle.audit_core.specs.Names.{is_on_line, are_on_lines, has_line_names};

use venue_words::{Bytes, Config};

/// Whether a line ends in a text.
fn has_end(text: &Bytes) -> bool
    ensures { result ≡ has_end text.now }
{
    text.as_slice().iter().any(|byte| *byte == b'\n')
}

fn is_on_line(name: &Bytes) -> bool
    ensures { result ≡ is_on_line name.now }
{
    !has_end(name)
}

fn are_on_lines(names: &[Bytes]) -> bool
    ensures { result ≡ are_on_lines names.now }
{
    names.iter().all(is_on_line)
}

/// Whether no line ends in a name of a config, so that each line of its listing is one line.
#[tactic(auto, unfolding(crate::specs::Names::has_line_names))]
pub fn has_line_names(config: &Config) -> bool
    ensures { result ≡ has_line_names config.now }
{
    are_on_lines(config.members.as_slice())
        && are_on_lines(config.markets.as_slice())
        && are_on_lines(config.symbols.as_slice())
}
