//! Names as they are shown.
ghost use Rattle.std.specs.Prelude.{◌≡◌, IfOk, string_bytes};
ghost use Rattle.watch_page.specs.Rows.{IsLabelOf};

use script_text::words::is_name;
use std::alloc::Global;
use std::fmt;
use std::marker::Model;
use std::str::from_utf8;
use venue_words::NoMemory;

/// The name of a member, a market or a symbol: letters, digits, points and underscores, of which none means anything to a browser or
/// in a label of Prometheus. Contracts see its bytes.
#[derive(Debug, Drop)]
pub struct Label(String);

impl Model for Label {
    ghost use Rattle.std.specs.Prelude.{◌≡◌, ℕ, List, true, string_bytes};
    ghost use Rattle.std.specs.List.{list_all};
    ghost use Rattle.script_text.specs.Words.{is_name_byte};

    ghost Value = { List ℕ };

    ghost view = { λ l. string_bytes l.0 };

    ghost invariant = { λ l. list_all is_name_byte (string_bytes l.0) ≡ true };
}

impl Label {
    /// The label of a name; `unnamed` for bytes that are none.
    #[tactic(auto, using(crate::proofs::Labels::name_bytes, crate::proofs::Labels::unnamed_bytes))]
    pub fn new(alloc: Global, name: &[u8]) -> Result<Label, NoMemory>
        ensures { IfOk result (λ label. IsLabelOf name.now label) }
    {
        if is_name(name) {
            if let Ok(text) = from_utf8(name) {
                return Ok(Label(String::from_str(alloc, text)?));
            }
        }
        Ok(Label(String::from_str(alloc, "unnamed")?))
    }

    /// Its text.
    pub fn as_str(&self) -> &str
        ensures { result.now ≡ self.now }
    {
        self.0.as_str()
    }
}

impl fmt::Display for Label {
    fn fmt<W: fmt::Write>(&self, f: &mut fmt::Formatter<W>) -> fmt::Result {
        f.write_str(self.0.as_str())
    }
}
