//! A snapshot of few rows, shown both ways.
use crate::{
    Following, JournalRow, Label, MarketRow, MemberRow, Resting, Snapshot, SymbolRow, Trade,
    Waiting, metrics, page,
};
use std::alloc::Global;
use std::test::Fail;
use venue_words::NoMemory;

/// 2024-01-02 14:30:00 UTC.
const NOW: u64 = 1_704_205_800_000;

fn symbol(alloc: Global) -> Result<SymbolRow, NoMemory> {
    let mut markets = Vec::new(alloc);
    markets.push(MarketRow {
        name: Label::new(alloc, b"NYSE")?,
        bid: Some(2_000),
        offer: None,
        since: Some(NOW - 5_001),
    })?;
    Ok(SymbolRow {
        name: Label::new(alloc, b"ABC")?,
        events: 80,
        limit: 100,
        halted: Some(true),
        markets,
        buys: Resting {
            orders: 2,
            shares: 1_500,
        },
        sells: Resting {
            orders: 0,
            shares: 0,
        },
        trades: 3,
        traded: 1_234_567,
        last: Some(Trade {
            price: 4_001,
            quantity: 100,
            moment: NOW - 90_000,
        }),
    })
}

fn snapshot(alloc: Global) -> Result<Snapshot, NoMemory> {
    let mut members = Vec::new(alloc);
    members.push(MemberRow {
        name: Label::new(alloc, b"<b>")?,
        up: true,
        last_in: 7,
        last_out: 9,
        seen: Some(NOW - 1_500),
        waiting: Some(Waiting {
            bytes: 70_000,
            turns: 1,
        }),
    })?;
    let mut symbols = Vec::new(alloc);
    symbols.push(symbol(alloc)?)?;
    Ok(Snapshot {
        now: NOW,
        stale: 5_000,
        members,
        symbols,
        journal: JournalRow {
            bytes: 4_096,
            lines: 12,
            last: Some(NOW - 250),
            following: Following::Whole,
        },
        desk: true,
    })
}

#[test]
fn prometheus_is_told_of_each_number(rt: HostRuntime) -> Result<(), Fail> {
    let Ok(text) = metrics(rt.alloc(), &snapshot(rt.alloc())?) else {
        return Err("out of memory".into());
    };
    for line in [
        "\nlubweqad_member_up{member=\"unnamed\"} 1\n",
        "\nlubweqad_member_waiting_bytes{member=\"unnamed\"} 70000\n",
        "\nlubweqad_symbol_events_total{symbol=\"ABC\"} 80\n",
        "\nlubweqad_resting_shares{symbol=\"ABC\",side=\"buy\"} 1500\n",
        "\nlubweqad_quote_bid{symbol=\"ABC\",market=\"NYSE\"} 20.00\n",
        "\nlubweqad_last_trade_price{symbol=\"ABC\"} 20.005\n",
        "\nlubweqad_last_trade_timestamp_seconds{symbol=\"ABC\"} 1704205710.000\n",
        "# TYPE lubweqad_symbol_events_total counter\n",
    ] {
        assert!(rt; text.contains(line));
    }
    assert!(rt; !text.contains("quote_offer{"));
    Ok(())
}

#[test]
fn the_page_warns(rt: HostRuntime) -> Result<(), Fail> {
    let Ok(text) = page(rt.alloc(), &snapshot(rt.alloc())?) else {
        return Err("out of memory".into());
    };
    for part in [
        "The day at 20240102-14:30:00.000 UTC",
        "4,096 bytes, 12 lines, the last 0.2 s ago; all lines are shown",
        "NYSE 20.00 / - <span class=\"warn\">\u{25b2} stale 5.0 s</span>",
        "<span class=\"warn\">\u{25b2} 80 of 100 (80 %)</span>",
        "HALTED",
        "100 at 20.005 <span class=\"dim\">1 min 30 s</span>",
        "3 (1,234,567)",
        "\u{25b2} 70,000",
    ] {
        assert!(rt; text.contains(part));
    }
    assert!(rt; !text.contains("<b>"));
    Ok(())
}
