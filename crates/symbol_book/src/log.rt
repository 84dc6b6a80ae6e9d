//! The reports of a book.
use std::alloc::{AllocError, Global};
use std::marker::Model;
use venue_words::{Event, Kind, Report};

/// The reports of a book, with places for more.
#[derive(Drop)]
pub struct ReportLog {
    reports: Vec<Report>,
}

impl Model for ReportLog {
    ghost use Rattle.std.specs.Prelude.{◌-◌, vec_len};
    ghost use Rattle.std.specs.Vec.{vec_capacity};
    ghost use Rattle.symbol_book.specs.Log.{Log};

    ghost Value = { Log };

    ghost view = { λ l. record { list = l.reports.items; places = vec_capacity l.reports - vec_len l.reports } };
}

impl ReportLog {
    ghost use Rattle.std.specs.Prelude.{◌≡◌, ◌+◌, ◌^◌, ◌<◌, ◌≤◌, [], ◌∷◌, OnOk};
    ghost use Rattle.symbol_book.specs.Log.{Reports};

    /// No reports.
    pub fn new(alloc: Global) -> ReportLog
        ensures list { result.list ≡ [] }
    {
        ReportLog {
            reports: Vec::new(alloc),
        }
    }

    /// The reports.
    pub fn as_slice(&self) -> &[Report]
        ensures { result.now ≡ self.now.list }
    {
        self.reports.as_slice()
    }

    /// Makes places for so many more reports.
    pub fn reserve(&mut self, places: usize) -> Result<(), AllocError>
        ensures list { self.new.list ≡ self.old.list }
        ensures places { OnOk result (places ≤ self.new.places) }
    {
        self.reports.reserve(places)
    }

    /// Reports something to a member, and answers the next place.
    #[tactic(auto, unfolding(eager_meaning::specs::Step::reports_from))]
    pub fn push(&mut self, event: &Event, place: u32, member: u32, kind: Kind) -> u32
        requires place { place + 1 < 2 ^ 32 }
        requires some { 0 < self.old.places }
        ensures reports { Reports event.now self.old.list place
            (record { member = member; kind = kind } ∷ []) self.new.list result }
        ensures next { result ≡ place + 1 }
        ensures places { self.new.places + 1 ≡ self.old.places }
    {
        self.reports.push_reserved(Report {
            event: event.number,
            place,
            member,
            moment: event.moment,
            kind,
        });
        place + 1
    }
}
