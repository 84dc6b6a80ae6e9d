//! What a live venue needs of the outside.
ghost use Rattle.std.specs.Prelude.{◌≡◌, ℕ};
ghost use Rattle.venue_words.specs.Causes.{HasCause};
ghost use Rattle.live_words.specs.declared.access.Origin.{Origin};

use io_edge::Failed;
use live_words::{Event, Origin};
use ports::Ports;

/// The members' connections, the operators, and the log. No call but `wait` waits.
pub trait Outside: Ports {
    /// Where the last connection of each port came in.
    ghost origin: { Self → ℕ → Origin };

    /// Where the last connection of a port came in.
    fn origin(&self, port: usize) -> Origin
        ensures { result ≡ Self.origin self.now port };

    /// Sends operators what they were answered, and waits until a port or an operator may have something to do, at most so many
    /// milliseconds. No byte of a member moves.
    fn wait(&mut self, most_milliseconds: u64) -> Result<(), Failed>
        ensures came { (q : ℕ) → Self.came self.new q ≡ Self.came self.old q }
        ensures went { (q : ℕ) → Self.went self.new q ≡ Self.went self.old q }
        ensures up { (q : ℕ) → Self.up self.new q ≡ Self.up self.old q }
        ensures cause { HasCause (Self.faults self.old) (Self.faults self.new) result };

    /// Lays the next whole line that an operator wrote, without its LF, into `line`, in place of what was there, and answers who
    /// wrote it; none now.
    fn word(&mut self, line: &mut Vec<u8>) -> Result<Option<usize>, Failed>
        ensures came { (q : ℕ) → Self.came self.new q ≡ Self.came self.old q }
        ensures went { (q : ℕ) → Self.went self.new q ≡ Self.went self.old q }
        ensures up { (q : ℕ) → Self.up self.new q ≡ Self.up self.old q }
        ensures cause { HasCause (Self.faults self.old) (Self.faults self.new) result };

    /// Answers an operator, by one or more lines, each with its LF, which go out at the next `wait`: by then the lines of this round are
    /// kept. An operator who is gone is no failure.
    fn answer(&mut self, operator: usize, text: &[u8]) -> Result<(), Failed>
        ensures came { (q : ℕ) → Self.came self.new q ≡ Self.came self.old q }
        ensures went { (q : ℕ) → Self.went self.new q ≡ Self.went self.old q }
        ensures up { (q : ℕ) → Self.up self.new q ≡ Self.up self.old q }
        ensures cause { HasCause (Self.faults self.old) (Self.faults self.new) result };

    /// Tells the log of something that happened, in one line. What the log can't take is dropped.
    fn log(&mut self, event: Event)
        ensures came { (q : ℕ) → Self.came self.new q ≡ Self.came self.old q }
        ensures went { (q : ℕ) → Self.went self.new q ≡ Self.went self.old q }
        ensures up { (q : ℕ) → Self.up self.new q ≡ Self.up self.old q }
        ensures faults { Self.faults self.new ≡ Self.faults self.old };
}
