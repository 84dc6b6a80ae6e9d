//! What a caller knows of the reports that a member may be waiting for.

/// What a caller knows of the reports that a member may be waiting for, by symbol in the config's order.
#[derive(Clone, Copy)]
pub struct Awaited<'a> {
    /// How many reports the symbol has, of any member.
    pub fronts: &'a [u32],
    /// Whether the symbol is asked for the member's reports: true wherever some may wait. A symbol past the end is not asked.
    pub asked: &'a [bool],
}
