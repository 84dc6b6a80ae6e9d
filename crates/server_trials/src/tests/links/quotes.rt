//! How files of quotes end.
ghost use Rattle.venue_words.specs.Conditions.{IsConfig};

use super::{clock_of, config_of, shelf_of};
use io_edge::Shelf;
use script_text::LineCause;
use serve_core::{QuoteEnd, serve_quotes};
use std::alloc::Global;
use std::sync::Wait;
use std::test::Fail;
use symbol_book::HashSeed;
use venue_core::{Seated, make};
use venue_words::{Config, NoMemory};

const QUOTE: &[u8] = b"Q X N 150.10 150.14\n";

/// How the shelf's file ends, over a venue of its own.
fn ended_at<R: Wait, H: Shelf>(
    rt: &R,
    alloc: Global,
    config: &Config,
    shelf: &mut H,
) -> Result<QuoteEnd, NoMemory>
    requires { IsConfig config.now }
{
    let mut clock = clock_of(alloc)?;
    let (venue, seats) = make(alloc, HashSeed::fixed(), config)?;
    let mut floor = Seated {
        rt,
        venue: &venue,
        seats,
    };
    let end = serve_quotes(alloc, config, &mut floor, shelf, "q", &mut clock);
    drop(floor);
    drop(venue);
    drop(clock);
    Ok(end)
}

/// How a file with so many quotes and then this text ends, over a venue of its own whose shelf fails at this call, if it comes to that.
fn ended<R: Wait>(
    rt: &R,
    alloc: Global,
    quotes: usize,
    text: &[u8],
    fails: u64,
) -> Result<QuoteEnd, NoMemory> {
    let mut bytes = Vec::new(alloc);
    for _ in 0..quotes {
        bytes.extend_from_slice(QUOTE)?;
    }
    bytes.extend_from_slice(text)?;
    let mut shelf = shelf_of(alloc, bytes, fails)?;
    let config = config_of(alloc)?;
    let end = ended_at(rt, alloc, &config, &mut shelf);
    drop(config);
    drop(shelf);
    end
}

#[test]
fn the_first_line_that_is_no_quote_ends_a_file(rt: HostRuntime) -> Result<(), Fail> {
    let alloc = rt.alloc();
    let lines: [(&[u8], LineCause); 4] = [
        (b"T 20240102-14:30:00.000\nQ Y N - -\n", LineCause::BadWord),
        (b"M Z x\n", LineCause::BadWord),
        (b"Q Y N - -\n", LineCause::UnknownName),
        (b"Q X N - -", LineCause::NoEnd),
    ];
    for (text, cause) in lines {
        let end = ended(&rt, alloc, 1, text, 0)?;
        assert_eq!(rt; end, QuoteEnd::BadLine { line: 2, cause });
    }
    assert_eq!(rt; ended(&rt, alloc, 0, b"", 0)?, QuoteEnd::Done);
    Ok(())
}

#[test]
fn a_full_journal_and_a_failed_read_end_a_file(rt: HostRuntime) -> Result<(), Fail> {
    let alloc = rt.alloc();
    assert_eq!(rt; ended(&rt, alloc, 100, b"", 0)?, QuoteEnd::Done);
    let full = QuoteEnd::Full {
        symbol: 0,
        found: 100,
    };
    assert_eq!(rt; ended(&rt, alloc, 101, b"", 0)?, full);
    assert_eq!(rt; ended(&rt, alloc, 1, b"", 3)?, QuoteEnd::ReadFault);
    Ok(())
}
