//! The picture of a day as a file of its own.
use crate::day::Day;
use day_picture::axis::push_date_words;
use day_picture::style::{CHART, FONT, PALETTE};
use day_picture::svg::push;
use std::alloc::Global;
use venue_words::NoMemory;

/// Its title: the symbol's name, and the date of the first event.
fn title_of(alloc: Global, name: &[u8], day: &Day) -> Result<Vec<u8>, NoMemory> {
    let mut title = Vec::new(alloc);
    push(&mut title, name)?;
    if let Some(range) = day.sketch.range() {
        push(&mut title, b", ")?;
        push_date_words(alloc, &mut title, range.first)?;
    }
    Ok(title)
}

/// The picture of a day of the symbol with this name, as SVG.
pub fn picture_of(alloc: Global, name: &[u8], day: &mut Day) -> Result<Vec<u8>, NoMemory> {
    let title = title_of(alloc, name, day)?;
    let mut style = Vec::new(alloc);
    push(&mut style, PALETTE)?;
    push(&mut style, CHART)?;
    push(&mut style, FONT)?;
    let mut out = Vec::new(alloc);
    day.sketch.push_alone(alloc, &mut out, &title, &style)?;
    Ok(out)
}
