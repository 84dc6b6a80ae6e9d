//! The journal that is followed, and its figures.
use journal_follow::{FollowFault, Follower, JournalFile, Looked};
use live_machine::{BookMachine, PhaseMachine};
use std::alloc::Global;
use std::sync::ledger::Ledger;
use venue_words::{NoMemory, Steps};
use watch_figures::{DeskTold, Figures, Moment};
use watch_page::{Following, JournalRow, Snapshot};

/// A journal that is followed, and its figures once its header is whole.
#[derive(Drop)]
pub struct Watch<L: Ledger> {
    alloc: Global,
    follower: Follower<BookMachine<L>>,
    figures: Option<Figures>,
    following: Following,
}

impl<L: Ledger> Watch<L> {
    /// Before the first line.
    pub fn new(alloc: Global, steps: Steps<L>) -> Result<Watch<L>, FollowFault> {
        let machine: BookMachine<L> = PhaseMachine::new(alloc, steps);
        Ok(Watch {
            alloc,
            follower: Follower::new(alloc, machine)?,
            figures: None,
            following: Following::Unread,
        })
    }

    /// How the journal is followed.
    pub fn following(&self) -> Following {
        self.following
    }

    /// Whether a look may find more: not after damage or a refused line.
    pub fn goes_on(&self) -> bool {
        matches!(
            self.following,
            Following::Whole | Following::Behind | Following::Unread
        )
    }

    /// Notes what the last look worked.
    fn note(&mut self) -> Result<(), NoMemory> {
        let Some(player) = self.follower.machine().player() else {
            return Ok(());
        };
        if self.figures.is_none() {
            self.figures = Some(Figures::new(self.alloc, player.config())?);
        }
        if let Some(figures) = &mut self.figures {
            figures.note(player, self.follower.lines(), self.follower.text())?;
        }
        Ok(())
    }

    /// Looks at the journal once, and says whether there may be more to work at once.
    pub fn look<J: JournalFile>(&mut self, file: &mut J) -> bool {
        self.following = match self.follower.look(file) {
            Ok(looked) => match self.note() {
                Ok(()) if looked == Looked::AtEnd => Following::Whole,
                Ok(()) => Following::Behind,
                Err(_) => Following::Stopped,
            },
            Err(FollowFault::ReadFault) => Following::Unread,
            Err(FollowFault::Damaged { at }) => Following::Damaged { at },
            Err(FollowFault::Refused { line }) => Following::Refused { line },
            Err(FollowFault::TooLong | FollowFault::NoMemory) => Following::Stopped,
        };
        self.following == Following::Behind
    }

    fn journal(&self) -> JournalRow {
        JournalRow {
            bytes: self.follower.size(),
            lines: self.follower.count(),
            last: self.figures.as_ref().map(|figures| figures.moment()),
            following: self.following,
        }
    }

    /// The figures at a moment; no rows before the header is whole.
    pub fn snapshot(&self, moment: Moment, desk: Option<&DeskTold>) -> Result<Snapshot, NoMemory> {
        let journal = self.journal();
        if let (Some(figures), Some(player)) = (&self.figures, self.follower.machine().player()) {
            return figures.snapshot(player, moment, journal, desk);
        }
        Ok(Snapshot {
            now: moment.now,
            stale: moment.stale,
            members: Vec::new(self.alloc),
            symbols: Vec::new(self.alloc),
            journal,
            desk: desk.is_some(),
        })
    }
}
