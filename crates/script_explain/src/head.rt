//! The header of a script, within the limits.
use script_text::{Header, LineFault};
use std::alloc::Global;
use std::marker::Model;
use venue_words::Config;

/// A header whose config keeps to the limits.
#[derive(Drop)]
pub struct Head {
    header: Header,
}

impl Model for Head {
    ghost use Rattle.venue_words.specs.Conditions.{IsConfig};
    ghost use Rattle.venue_words.specs.declared.config.Config.{Config};

    ghost Value = { Config };

    ghost view = { λ h. h.header.config };

    ghost invariant = { λ h. IsConfig h.header.config };
}

impl Head {
    ghost use Rattle.std.specs.Prelude.{◌≡◌};
    ghost use Rattle.venue_words.specs.Conditions.{IsConfig};

    /// Before its first line.
    pub fn new(alloc: Global) -> Head {
        Head {
            header: Header::new(alloc),
        }
    }

    /// Reads the next line, and says whether it ends the header.
    pub fn line(&mut self, alloc: Global, number: u32, text: &[u8]) -> Result<bool, LineFault> {
        match self.header.line(alloc, number, text) {
            Ok(is_last) => Ok(is_last),
            Err(fault) => {
                self.header = Header::new(alloc);
                Err(fault)
            }
        }
    }

    /// The config.
    pub fn into_config(self) -> Config
        ensures { IsConfig result }
    {
        self.header.config
    }
}
