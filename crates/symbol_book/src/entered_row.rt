//! The row with which an order entered, in few bytes.
ghost use Rattle.std.specs.Prelude.{◌≡◌, None, Some};
ghost use Rattle.venue_words.specs.Conditions.{IsTick};

use std::marker::Model;
use std::mem::size_of;
use venue_words::{Key, Method, Reference, Rounding, Row, Side};

/// The row with which an order entered last, or none where it was canceled or may not rest. Contracts see that.
#[derive(Drop)]
pub struct EnteredRow(Packed);

/// The parts of a row close together.
#[derive(Drop)]
enum Packed {
    Gone,
    Entered {
        side: Side,
        reference: Reference,
        rounding: Rounding,
        method: Method,
        traded: bool,
        grid: u8,
        offset: i32,
        order: u32,
        member: u32,
        cap: u32,
        entry: u32,
        leaves: u32,
        minimum: u32,
    },
}

const _: () = prove!(size_of::<EnteredRow>() == 36);

impl Model for EnteredRow {
    ghost use Rattle.std.specs.Prelude.{Option};
    ghost use Rattle.venue_words.specs.declared.row.Row.{Row};
    ghost use Rattle.symbol_book.specs.Entered.{unpacked};

    ghost Value = { Option Row };

    ghost view = { λ r. unpacked r.0 };
}

impl EnteredRow {
    /// That of an order that does not rest.
    pub fn none() -> EnteredRow
        ensures { result ≡ None }
    {
        EnteredRow(Packed::Gone)
    }

    /// That of an order that enters with this row.
    pub fn of(row: Row) -> EnteredRow
        requires { IsTick row.key.grid }
        ensures { result ≡ Some row }
    {
        EnteredRow(Packed::Entered {
            side: row.key.side,
            reference: row.key.reference,
            rounding: row.key.rounding,
            method: row.method,
            traded: row.traded,
            grid: row.key.grid as u8,
            offset: row.key.offset,
            order: row.order,
            member: row.member,
            cap: row.cap,
            entry: row.entry,
            leaves: row.leaves,
            minimum: row.minimum,
        })
    }

    /// The row.
    pub fn get(&self) -> Option<Row>
        ensures { result ≡ self.now }
    {
        match &self.0 {
            Packed::Gone => None,
            Packed::Entered {
                side,
                reference,
                rounding,
                method,
                traded,
                grid,
                offset,
                order,
                member,
                cap,
                entry,
                leaves,
                minimum,
            } => Some(Row {
                order: *order,
                member: *member,
                key: Key {
                    offset: *offset,
                    grid: u32::from(*grid),
                    side: *side,
                    reference: *reference,
                    rounding: *rounding,
                },
                cap: *cap,
                entry: *entry,
                leaves: *leaves,
                minimum: *minimum,
                method: *method,
                traded: *traded,
            }),
        }
    }
}
