//! Prices and quotes, read and written.
use case_text::Told;
use fix_fields::number;
use quote_intake::{price, read_quote};
use quote_text::push_side;
use std::alloc::Global;
use venue_words::{Bytes, Command, Config, Items, NoMemory};

fn names(alloc: Global, names: &[&[u8]]) -> Result<Items<Bytes>, NoMemory> {
    let mut list = Items::new(alloc);
    for name in names {
        list.push(Bytes::copy_of(alloc, name)?)?;
    }
    Ok(list)
}

/// Markets N and P, and symbols X and BRK.B.
fn config(alloc: Global) -> Result<Config, NoMemory> {
    Ok(Config {
        members: Items::new(alloc),
        markets: names(alloc, &[b"N", b"P"])?,
        symbols: names(alloc, &[b"X", b"BRK.B"])?,
        limits: Items::new(alloc),
        ticks: Items::new(alloc),
        begin: 0,
    })
}

/// Tells the symbol and the market of a quote by their numbers, its bid and its offer, or why it is none.
fn tell_quote(input: &[u8], told: &mut Told) -> Result<(), NoMemory> {
    let config = config(told.alloc)?;
    if config.symbols.len() > 256 || config.markets.len() > 32 {
        return Err(NoMemory);
    }
    match &read_quote(input, &config) {
        Ok((symbol, Command::Quote { market, bid, offer })) => {
            told.code(&(symbol, market, bid, offer))
        }
        Ok(_) => told.word("no quote"),
        Err(fault) => told.code(&fault),
    }
    Ok(())
}

/// Tells how a side of so many cents is written.
fn tell_side(input: &[u8], told: &mut Told) -> Result<(), NoMemory> {
    let mut out = Vec::new(told.alloc);
    push_side(&mut out, number(input))?;
    told.push(" = ");
    told.bytes(out.as_slice());
    Ok(())
}

/// `price` tells the cents that a text is, `quote` what a line quotes, and `side` how a number of cents is written.
pub fn play(word: &str, input: &[u8], told: &mut Told) -> Result<bool, NoMemory> {
    match word {
        "price" => told.code(&price(input)),
        "quote" => tell_quote(input, told)?,
        "side" => tell_side(input, told)?,
        _ => return Ok(false),
    }
    Ok(true)
}
