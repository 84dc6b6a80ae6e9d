//! The log: a line on standard error for each thing that happened, a UTC moment, a word, and what belongs to it as KEY=VALUE.
use fix_write::push_moment;
use io_edge::{Clock, RealClock};
use source_feed::{Note, Watch};

/// The clock and the log of a run.
#[derive(Drop)]
pub struct Log<'a> {
    rt: &'a HostRuntime,
    clock: RealClock<'a, HostRuntime>,
    /// A source answered our Logon since this was last asked.
    was_up: bool,
}

impl<'a> Log<'a> {
    pub fn new(rt: &'a HostRuntime) -> Log<'a> {
        Log {
            rt,
            clock: RealClock::new(rt),
            was_up: false,
        }
    }

    /// Tells a line at a moment. One for which there is no memory is lost.
    fn tell_at(&mut self, moment: i64, text: &str) {
        let mut line = Vec::new(self.rt.alloc());
        if push_moment(&mut line, moment).is_err() {
            return;
        }
        if let Ok(moment) = str::from_utf8(&line) {
            let _ = eprintln!(self.rt; "{moment} {text}");
        }
    }

    /// Tells a line.
    pub fn tell(&mut self, text: &str) {
        let moment = self.clock.now();
        self.tell_at(moment, text);
    }

    /// Whether a source answered our Logon since this was last asked.
    pub fn took_up(&mut self) -> bool {
        let was_up = self.was_up;
        self.was_up = false;
        was_up
    }
}

impl<'a> Watch for Log<'a> {
    fn now(&mut self) -> i64 {
        self.clock.now()
    }

    fn note(&mut self, moment: i64, note: Note) {
        match note {
            Note::LoggedOn => {
                self.was_up = true;
                self.tell_at(moment, "logged-on");
            }
            Note::Complains => self.tell_at(moment, "request-refused"),
            Note::Refused(refused) => {
                let text = format!(in self.rt.alloc();
                    "snapshot-refused number={} tag={} reason={}",
                    refused.number, refused.tag, refused.reason
                );
                if let Ok(text) = text {
                    self.tell_at(moment, text.as_str());
                }
            }
        }
    }
}
