//! The table of departures.
ghost use Rattle.std.specs.Prelude.{◌≡◌, ◌<◌, length};
ghost use Rattle.feeds_core.specs.FeedLists.{asked_in};

use crate::text::push_departures;
use audit_tables::counts::event_count;
use audit_tables::{RowTable, Rows};
use feeds_core::feed_list::FeedList;
use std::marker::{Brand, PhantomData};
use symbol_book::Book;
use venue_words::{Config, NoMemory, Report};

/// What feeds ask. A type stands for it, so that the type of a table says what it tells.
pub trait Given {
    ghost use Rattle.std.specs.Prelude.{List};
    ghost use Rattle.feed_work.specs.Feeds.{Asked};

    ghost feeds: { List (List Asked) };
}

impl Given for Brand {
    ghost use Rattle.std.specs.Prelude.{[]};

    ghost feeds = { [] };
}

/// Tells of each symbol where its journal is not what the feeds ask.
#[derive(Drop)]
pub struct DepartureRows<'a, G: Given> {
    lists: &'a [FeedList],
    of: PhantomData<G>,
    ghost is: { asked_in lists.now ≡ G.feeds },
    ghost few: { length lists.now < 4294967295 },
}

/// The departures of a day, on their way to a sink.
pub type DepartureTable<'a, G, K> = RowTable<DepartureRows<'a, G>, K>;

impl<'a, G: Given> DepartureRows<'a, G> {
    ghost use Rattle.std.specs.Prelude.{◌≡◌, ◌<◌, length};
    ghost use Rattle.feeds_core.specs.FeedLists.{asked_in};

    /// Nothing is told yet.
    pub fn new(lists: &'a [FeedList]) -> DepartureRows<'a, G>
        requires is { asked_in lists.now ≡ G.feeds }
        requires few { length lists.now < 4294967295 }
    {
        DepartureRows {
            lists,
            of: PhantomData,
        }
    }
}

impl<'a, G: Given> Rows for DepartureRows<'a, G> {
    ghost use Rattle.std.specs.Prelude.{[]};
    ghost use Rattle.audit_feeds.specs.FeedsText.{departures_telling};

    ghost tells = { departures_telling G.feeds };

    ghost header = { [] };

    ghost heard = { λ _ _ _ _. Unit {0} };

    fn begin(&mut self, _out: &mut Vec<u8>, _config: &Config) -> Result<(), NoMemory> {
        Ok(())
    }

    fn push_event(
        &mut self,
        _out: &mut Vec<u8>,
        _config: &Config,
        _symbol: u32,
        _book: &Book,
        _made: &[Report],
    ) -> Result<(), NoMemory> {
        Ok(())
    }

    fn push_end(
        &mut self,
        out: &mut Vec<u8>,
        config: &Config,
        symbol: u32,
        book: &Book,
    ) -> Result<(), NoMemory> {
        push_departures(out, config, symbol, book.journal(), self.lists)
    }
}
