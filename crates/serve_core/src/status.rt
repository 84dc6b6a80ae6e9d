//! How a run ended.
ghost use Rattle.std.specs.Prelude.{◌≡◌, ◌≢◌};
ghost use Rattle.serve_core.specs.Statuses.{exit_code, exit_of_quotes, status_of_setup, told_of, told_of_quotes};

use crate::quotes::QuoteEnd;
use crate::setup::SetupFault;
use script_text::{LimitCause, LineCause};
use venue_words::Bytes;

/// How a run ended. The end of a connection is none of it. Lines are counted from 1.
#[derive(Clone, Copy, Debug)]
pub enum ServeStatus<'a> {
    /// All connections were served, the quotes were submitted, and the listing was put.
    Done,
    /// The words have no form of a run.
    BadWords,
    /// That line of the config or of the quotes is the first one outside the grammar.
    BadLine { line: u32, cause: LineCause },
    /// That line of the config or of the quotes is the first one that would pass a limit.
    LimitLine { line: u32, which: LimitCause },
    /// The config or the quotes could not be opened or read.
    ReadFault,
    /// The listing could not be put.
    WriteFault,
    /// Memory was wanted.
    NoMemory,
    /// A quote came to the symbol of this name, whose journal held its limit.
    Full { symbol: &'a [u8] },
    /// Connections could not be taken at the address.
    ListenFault,
}

/// The exit status of a run.
pub fn exit_code(status: ServeStatus<'_>) -> u8
    ensures { result ≡ exit_code status.entry }
{
    match status {
        ServeStatus::Done => 0,
        ServeStatus::BadWords => 2,
        ServeStatus::BadLine { .. } => 3,
        ServeStatus::LimitLine { .. } => 4,
        ServeStatus::ReadFault => 5,
        ServeStatus::WriteFault => 6,
        ServeStatus::NoMemory => 7,
        ServeStatus::Full { .. } => 8,
        ServeStatus::ListenFault => 13,
    }
}

/// The status of a run that does not begin.
pub fn status_of_setup(fault: SetupFault) -> ServeStatus<'static>
    ensures { result ≡ status_of_setup fault }
{
    match fault {
        SetupFault::BadWords => ServeStatus::BadWords,
        SetupFault::BadLine { line, cause } => ServeStatus::BadLine { line, cause },
        SetupFault::LimitLine { line, which } => ServeStatus::LimitLine { line, which },
        SetupFault::ReadFault => ServeStatus::ReadFault,
        SetupFault::NoMemory => ServeStatus::NoMemory,
    }
}

/// The status of a run whose quotes ended so, where nothing else went wrong. The symbols' names are the config's.
pub fn status_of_quotes<'a>(end: QuoteEnd, symbols: &'a [Bytes]) -> ServeStatus<'a>
    ensures exit { exit_code result ≡ exit_of_quotes end }
    ensures told { told_of result ≡ told_of_quotes symbols.now end }
    ensures done { result ≡ ServeStatus.Done → end ≡ QuoteEnd.Done }
    ensures fault { result ≢ ServeStatus.WriteFault }
{
    match end {
        QuoteEnd::Done => ServeStatus::Done,
        QuoteEnd::BadLine { line, cause } => ServeStatus::BadLine { line, cause },
        QuoteEnd::LimitLine { line, which } => ServeStatus::LimitLine { line, which },
        QuoteEnd::Full { symbol, .. } => ServeStatus::Full {
            symbol: match symbols.get(symbol as usize) {
                Some(name) => name.as_slice(),
                None => &[],
            },
        },
        QuoteEnd::ReadFault => ServeStatus::ReadFault,
        QuoteEnd::NoMemory => ServeStatus::NoMemory,
    }
}
