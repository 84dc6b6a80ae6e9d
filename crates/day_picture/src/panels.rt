//! The three panels of a chart: prices, the shares that were traded, and the shares that rest.
use crate::axis::{Axis, push_clock, push_width};
use crate::columns::Column;
use crate::picture::Dot;
use crate::scale::{Prices, share_step, steps_of};
use crate::svg::{push, push_commas, push_grouped, push_two, push_with, share};
use exec_reports::texts::push_price;
use venue_words::NoMemory;

/// The heights of the panels in pixels.
pub const PRICES: u64 = 250;

pub const TRADED: u64 = 60;

pub const RESTING: u64 = 108;

/// Where a panel stands: its top, and its height in pixels.
#[derive(Clone, Copy)]
pub struct Panel {
    pub top: u64,
    pub height: u64,
}

impl Panel {
    pub fn bottom(&self) -> u64 {
        self.top.saturating_add(self.height)
    }
}

/// Appends the beginning of a panel's own coordinates: tenths of a pixel down, and ten for each column across.
fn push_canvas(out: &mut Vec<u8>, panel: Panel, columns: u64) -> Result<(), NoMemory> {
    push_with(
        out,
        b"<svg y=\"#\" width=\"100%\" height=\"#\" viewBox=\"0 0 # #\" preserveAspectRatio=\"none\">",
        &[
            panel.top,
            panel.height,
            columns.saturating_mul(10),
            panel.height.saturating_mul(10),
        ],
    )
}

/// Appends the beginning of a label right of a panel.
fn push_label(out: &mut Vec<u8>, y: u64) -> Result<(), NoMemory> {
    push_with(
        out,
        b"<text class=\"r\" x=\"100%\" dx=\"8\" dy=\"4\" y=\"#\">",
        &[y],
    )
}

/// Appends a line across, which is stronger at a zero.
fn push_rule(out: &mut Vec<u8>, y: u64, is_zero: bool) -> Result<(), NoMemory> {
    push(
        out,
        if is_zero {
            b"<line class=\"b\""
        } else {
            b"<line class=\"g\""
        },
    )?;
    push_with(out, b" x2=\"100%\" y1=\"#\" y2=\"#\"/>", &[y, y])
}

/// Appends an item of a legend: a swatch of this class, and words. It answers where the next one stands.
pub fn push_item(
    out: &mut Vec<u8>,
    x: u64,
    y: u64,
    class: &[u8],
    words: &[u8],
) -> Result<u64, NoMemory> {
    let mut at = x;
    if !class.is_empty() {
        push(out, b"<rect class=\"")?;
        push(out, class)?;
        push_with(
            out,
            b"\" x=\"#\" y=\"#\" width=\"10\" height=\"10\"/>",
            &[x, y.saturating_sub(9)],
        )?;
        at = at.saturating_add(16);
    }
    push_with(out, b"<text x=\"#\" y=\"#\">", &[at, y])?;
    push(out, words)?;
    push(out, b"</text>")?;
    let wide = (words.len() as u64).saturating_mul(6);
    Ok(at.saturating_add(wide).saturating_add(22))
}

/// Appends the lines of round prices, with the prices.
pub fn push_price_rules(out: &mut Vec<u8>, panel: Panel, prices: &Prices) -> Result<(), NoMemory> {
    let mut price = steps_of(prices.bottom, prices.step).saturating_mul(prices.step);
    for _ in 0..10 {
        if price > prices.top {
            break;
        }
        let y = panel
            .top
            .saturating_add(prices.below(price, panel.height.saturating_mul(10)) / 10);
        push_rule(out, y, false)?;
        push_label(out, y)?;
        push_tick_price(out, price, prices.step)?;
        push(out, b"</text>")?;
        price = price.saturating_add(prices.step);
    }
    Ok(())
}

/// Appends a price with as many decimals as the ticks need.
fn push_tick_price(out: &mut Vec<u8>, price: u64, step: u64) -> Result<(), NoMemory> {
    push_with(out, b"#.", &[price / 200])?;
    let rest = price % 200;
    push_two(out, rest / 2)?;
    if step % 2 == 1 {
        push(out, if rest % 2 == 1 { b"5" } else { b"0" })?;
    }
    Ok(())
}

/// Appends grey strips where columns had no quote.
fn push_gaps(out: &mut Vec<u8>, columns: &[Column], height: u64) -> Result<(), NoMemory> {
    push(out, b"<path class=\"e\" d=\"")?;
    let mut x = 0u64;
    for column in columns {
        if column.quote.is_none() {
            push_with(out, b"M# 0h10v#h-10z", &[x, height])?;
        }
        x = x.saturating_add(10);
    }
    push(out, b"\"/>")
}

/// The top and the bottom of a column's quote, at least a pixel apart.
fn band_at(column: &Column, prices: &Prices, height: u64) -> Option<(u64, u64)> {
    let (bid, offer) = column.quote?;
    let top = prices.below(u64::from(offer).saturating_mul(2), height);
    let bottom = prices.below(u64::from(bid).saturating_mul(2), height);
    Some((top, bottom.max(top.saturating_add(10))))
}

/// Appends the national quote as a band, column by column.
fn push_band(
    out: &mut Vec<u8>,
    columns: &[Column],
    prices: &Prices,
    height: u64,
) -> Result<(), NoMemory> {
    push(out, b"<path class=\"q\" d=\"")?;
    let mut x = 0u64;
    for column in columns {
        if let Some((top, bottom)) = band_at(column, prices, height) {
            push_with(out, b"M# #h10V#h-10z", &[x, top, bottom])?;
        }
        x = x.saturating_add(10);
    }
    push(out, b"\"/>")
}

/// Appends one edge of the band: its top or its bottom, which goes on from column to column.
fn push_edge(
    out: &mut Vec<u8>,
    columns: &[Column],
    prices: &Prices,
    height: u64,
    is_top: bool,
) -> Result<(), NoMemory> {
    let mut x = 0u64;
    let mut is_on = false;
    for column in columns {
        match band_at(column, prices, height) {
            Some((top, bottom)) => {
                let y = if is_top { top } else { bottom };
                if is_on {
                    push_with(out, b"V#h10", &[y])?;
                } else {
                    push_with(out, b"M# #h10", &[x, y])?;
                }
                is_on = true;
            }
            None => is_on = false,
        }
        x = x.saturating_add(10);
    }
    Ok(())
}

/// Appends the trades of each column as a bar from the least price to the greatest.
fn push_bars(
    out: &mut Vec<u8>,
    columns: &[Column],
    prices: &Prices,
    height: u64,
) -> Result<(), NoMemory> {
    push(out, b"<path class=\"t\" d=\"")?;
    let mut x = 2u64;
    for column in columns {
        if let Some((low, high)) = column.trades {
            let mut top = prices.below(u64::from(high), height);
            let mut bottom = prices.below(u64::from(low), height);
            if bottom < top.saturating_add(20) {
                let middle = top.saturating_add(bottom) / 2;
                top = middle.saturating_sub(10);
                bottom = middle.saturating_add(10);
            }
            push_with(out, b"M# #h6v#h-6z", &[x, top, bottom.saturating_sub(top)])?;
        }
        x = x.saturating_add(10);
    }
    push(out, b"\"/>")
}

/// Appends the panel of prices without its dots: gaps, the band, bars where there are more trades than dots, and above them the band's edge.
pub fn push_prices(
    out: &mut Vec<u8>,
    panel: Panel,
    columns: &[Column],
    prices: &Prices,
    has_bars: bool,
) -> Result<(), NoMemory> {
    let height = panel.height.saturating_mul(10);
    push_canvas(out, panel, columns.len() as u64)?;
    push_gaps(out, columns, height)?;
    push_band(out, columns, prices, height)?;
    if has_bars {
        push_bars(out, columns, prices, height)?;
    }
    push(out, b"<path class=\"w\" d=\"")?;
    push_edge(out, columns, prices, height, true)?;
    push_edge(out, columns, prices, height, false)?;
    push(out, b"\"/></svg>")
}

/// Appends a trade as a dot, which says when it was, and of how many shares at which price.
pub fn push_dot(
    out: &mut Vec<u8>,
    panel: Panel,
    prices: &Prices,
    across: u64,
    dot: &Dot,
) -> Result<(), NoMemory> {
    let y = prices.below(u64::from(dot.price), panel.height.saturating_mul(10));
    push_with(
        out,
        b"<circle class=\"t\" cx=\"@\" cy=\"#.#\" r=\"3.5\"><title>",
        &[across, panel.top.saturating_add(y / 10), y % 10],
    )?;
    push_clock(out, dot.time, 1)?;
    push(out, b" ")?;
    push_commas(out, u64::from(dot.quantity))?;
    push(out, b" at ")?;
    push_price(out, dot.price)?;
    push(out, b"</title></circle>")
}

/// The most shares that were traded in a column.
fn most_traded(columns: &[Column]) -> u64 {
    let mut most = 0u64;
    for column in columns {
        most = most.max(column.volume);
    }
    most
}

/// The most shares that rest at the end of a column, of buys and of sells.
fn most_resting(columns: &[Column]) -> (u64, u64) {
    let mut buys = 0u64;
    let mut sells = 0u64;
    for column in columns {
        buys = buys.max(column.buys);
        sells = sells.max(column.sells);
    }
    (buys, sells)
}

/// Appends the legend of the panel of shares that were traded.
pub fn push_traded_legend(
    out: &mut Vec<u8>,
    y: u64,
    axis: Axis,
    width: u64,
) -> Result<(), NoMemory> {
    push_item(out, 0, y, b"t", b"")?;
    push_with(out, b"<text x=\"16\" y=\"#\">Shares traded by ", &[y])?;
    push_width(out, axis, width)?;
    push(out, b"</text>")
}

/// Appends the lines of round numbers of shares above a zero, with the numbers.
fn push_share_rules(
    out: &mut Vec<u8>,
    zero: u64,
    height: u64,
    step: u64,
    steps: (u64, u64),
    is_up: bool,
) -> Result<(), NoMemory> {
    let (count, all) = steps;
    for k in 0..8 {
        if k >= count {
            break;
        }
        let number = k.saturating_add(1);
        let far = share(height, number, all);
        let y = if is_up {
            zero.saturating_sub(far)
        } else {
            zero.saturating_add(far)
        };
        push_rule(out, y, false)?;
        push_label(out, y)?;
        push_grouped(out, number.saturating_mul(step))?;
        push(out, b"</text>")?;
    }
    Ok(())
}

fn push_zero(out: &mut Vec<u8>, y: u64) -> Result<(), NoMemory> {
    push_rule(out, y, true)?;
    push_label(out, y)?;
    push(out, b"0</text>")
}

/// Appends the shares that were traded in each column.
pub fn push_traded(out: &mut Vec<u8>, panel: Panel, columns: &[Column]) -> Result<(), NoMemory> {
    let most = most_traded(columns).max(1);
    let step = share_step(3, most, 0);
    let count = steps_of(most, step).max(1);
    let scale = count.saturating_mul(step);
    let height = panel.height.saturating_mul(10);
    push_share_rules(
        out,
        panel.bottom(),
        panel.height,
        step,
        (count, count),
        true,
    )?;
    push_canvas(out, panel, columns.len() as u64)?;
    push(out, b"<path class=\"t\" d=\"")?;
    let mut x = 1u64;
    for column in columns {
        if column.volume > 0 {
            let tall = share(height, column.volume, scale).max(5);
            push_with(out, b"M# #v-#h8V#z", &[x, height, tall, height])?;
        }
        x = x.saturating_add(10);
    }
    push(out, b"\"/></svg>")?;
    push_zero(out, panel.bottom())
}

/// Appends the shares of one side that rest, as an area from the zero up or down.
fn push_side(
    out: &mut Vec<u8>,
    columns: &[Column],
    zero: u64,
    height: u64,
    scale: u64,
    is_buys: bool,
) -> Result<(), NoMemory> {
    push(
        out,
        if is_buys {
            b"<path class=\"u\" d=\""
        } else {
            b"<path class=\"s\" d=\""
        },
    )?;
    push_with(out, b"M0 #", &[zero])?;
    for column in columns {
        let shares = if is_buys { column.buys } else { column.sells };
        let far = share(height, shares, scale);
        let y = if is_buys {
            zero.saturating_sub(far)
        } else {
            zero.saturating_add(far)
        };
        push_with(out, b"V#h10", &[y])?;
    }
    push_with(out, b"V#z\"/>", &[zero])
}

/// Appends the shares that rest: buys up and sells down, on one scale.
pub fn push_resting(out: &mut Vec<u8>, panel: Panel, columns: &[Column]) -> Result<(), NoMemory> {
    let (buys, sells) = most_resting(columns);
    let step = share_step(6, buys, sells);
    let down = steps_of(sells, step);
    let up = steps_of(buys, step).max(if down == 0 { 1 } else { 0 });
    let all = up.saturating_add(down).max(1);
    let scale = all.saturating_mul(step);
    let height = panel.height.saturating_mul(10);
    let zero = share(height, up, all);
    let middle = panel.top.saturating_add(zero / 10);
    push_share_rules(out, middle, panel.height, step, (up, all), true)?;
    push_share_rules(out, middle, panel.height, step, (down, all), false)?;
    push_canvas(out, panel, columns.len() as u64)?;
    push_side(out, columns, zero, height, scale, true)?;
    push_side(out, columns, zero, height, scale, false)?;
    push(out, b"</svg>")?;
    push_zero(out, middle)
}
