//! Ticks, and prices in units of 0.005.
ghost use Rattle.venue_words.specs.Conditions.{IsTick};

use case_text::Told;

/// The tick of a symbol.
#[derive(Clone, Copy)]
pub enum Tick {
    OneCent,
    FiveCents,
}

impl Tick {
    /// The tick that a text is: 0.05, or else 0.01.
    pub fn of(text: &[u8]) -> Tick {
        if text == b"0.05".as_slice() {
            Tick::FiveCents
        } else {
            Tick::OneCent
        }
    }

    /// How many units of 0.005 it is.
    pub fn units(self) -> u32
        ensures { IsTick result }
    {
        match self {
            Tick::OneCent => 2,
            Tick::FiveCents => 10,
        }
    }
}

/// Tells a number of ten-thousandths with its four decimals.
pub fn show_ten_thousandths(number: u64, told: &mut Told) {
    let fraction = number % 10_000;
    told.show(&(number / 10_000));
    told.push(if fraction < 10 {
        ".000"
    } else if fraction < 100 {
        ".00"
    } else if fraction < 1000 {
        ".0"
    } else {
        "."
    });
    told.show(&fraction);
}

/// Tells a price, which counts units of 0.005.
pub fn show_price(units: u32, told: &mut Told) {
    show_ten_thousandths(u64::from(units) * 50, told);
}
