//! What a book keeps beside its journal.
use crate::entered_row::EnteredRow;
use crate::ids::UsedIds;
use crate::log::ReportLog;
use crate::orders::Orders;
use best_prices::Markets;
use match_core::Engine;

/// What a book keeps beside its journal.
#[derive(Drop)]
pub struct Parts<E: Engine + Drop> {
    pub markets: Markets,
    pub engine: E,
    pub orders: Orders,
    /// For each order the row with which it entered last, or none where it was canceled or may not rest.
    pub entered: Vec<EnteredRow>,
    pub ids: UsedIds,
    pub log: ReportLog,
}
