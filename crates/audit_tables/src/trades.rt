//! The table of trades.
ghost use Rattle.std.specs.Prelude.{◌≡◌, ◌++◌, OnOk};
ghost use Rattle.audit_tables.specs.Trades.{trade_header};

use crate::quotes::{no_quotes, note_event};
use crate::rows::{RowTable, Rows};
use crate::trade_line::push_trades;
use best_prices::Markets;
use std::alloc::Global;
use symbol_book::Book;
use venue_words::{Config, NoMemory, Report};

/// Tells of each trade, with the national quote behind its event.
#[derive(Drop)]
pub struct TradeRows {
    alloc: Global,
    /// The quotes of the markets in the symbol whose events come.
    markets: Markets,
}

/// A line for each trade, on its way to a sink.
pub type TradeTable<K> = RowTable<TradeRows, K>;

/// Appends the line of the fields' names. A refusal may leave a part of it.
fn push_header(out: &mut Vec<u8>) -> Result<(), NoMemory>
    ensures { OnOk result (out.new.items ≡ out.old.items ++ trade_header) }
{
    out.extend_from_slice(
        b"symbol,event,moment,price,quantity,buy_order,sell_order,buyer,seller,bid,offer,buyer_clordid,seller_clordid,taker,buyer_at_limit,seller_at_limit\n",
    )?;
    Ok(())
}

impl TradeRows {
    /// Nothing is told yet.
    pub fn new(alloc: Global) -> Result<TradeRows, NoMemory> {
        Ok(TradeRows {
            alloc,
            markets: Markets::new(alloc, 0)?,
        })
    }
}

impl Rows for TradeRows {
    ghost use Rattle.audit_tables.specs.Quotes.{HasQuotes};
    ghost use Rattle.audit_tables.specs.Trades.{trade_header, trade_telling};

    ghost tells = { trade_telling };

    ghost header = { trade_header };

    ghost heard = { λ rows config symbol journal. HasQuotes config symbol journal rows.markets };

    fn begin(&mut self, out: &mut Vec<u8>, config: &Config) -> Result<(), NoMemory> {
        self.markets = no_quotes(self.alloc, config)?;
        push_header(out)
    }

    fn push_event(
        &mut self,
        out: &mut Vec<u8>,
        config: &Config,
        symbol: u32,
        book: &Book,
        made: &[Report],
    ) -> Result<(), NoMemory> {
        note_event(&mut self.markets, config, symbol, book);
        let best = self.markets.best();
        push_trades(out, config, symbol, best, made)?;
        Ok(())
    }

    fn push_end(
        &mut self,
        _out: &mut Vec<u8>,
        config: &Config,
        _symbol: u32,
        _book: &Book,
    ) -> Result<(), NoMemory> {
        self.markets = no_quotes(self.alloc, config)?;
        Ok(())
    }
}
