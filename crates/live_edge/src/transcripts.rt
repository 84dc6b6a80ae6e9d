//! What lines yield, put to the members whom it is for.
ghost use Rattle.std.specs.Prelude.{ℕ, ◌≡◌, ◌+◌, ◌++◌, ◌∷◌, [], OnOk, OnErr, IfOk, IfErr};
ghost use Rattle.venue_words.specs.Causes.{HasCause};
ghost use Rattle.live_core.specs.Lines.{IsBeginning};
ghost use Rattle.live_edge.specs.Joins.{Joined, all_put};
ghost use Rattle.live_words.specs.Frames.{frames_of, frame_in, frame_for};
ghost use Rattle.live_words.specs.Lines.{text_of_lines};

use crate::connections::Connections;
use crate::outside::Outside;
use crate::story::Step;
use io_edge::Failed;
use live_words::{Setup, frame_of};
use script_text::cut_line;

impl<O: Outside> Connections<O> {
    /// Puts the frame of a line to its member.
    fn put_line(&mut self, setup: &Setup, line: &[u8]) -> Result<(), Failed>
        ensures told { OnOk result (self.new.story.tale.told ≡ self.old.story.tale.told ++ line.now ∷ []) }
        ensures err { OnErr result (self.new.story.tale.told ≡ self.old.story.tale.told) }
        ensures brought { self.new.story.tale.brought ≡ self.old.story.tale.brought }
        ensures frames { ((m : ℕ) → all_put self.old.story.tale.past m ≡ frames_of setup.now.members m self.old.story.tale.told)
            → (m : ℕ) → all_put self.new.story.tale.past m ≡ frames_of setup.now.members m self.new.story.tale.told }
        ensures joined { Joined self.old.story.tale.past self.old.table (O.came self.old.outside) (O.went self.old.outside) → Joined self.new.story.tale.past self.new.table (O.came self.new.outside) (O.went self.new.outside) }
        ensures cause { HasCause (O.faults self.old.outside + self.old.faults) (O.faults self.new.outside + self.new.faults) result }
    {
        let found = frame_of(self.alloc, setup, line);
        if let Some(found) = self.kept(found)? {
            self.put(found.member, &found.frame)?;
        }
        self.story = self.story.then(&Step::Told(line));
        Ok(())
    }

    /// Puts the frames of a transcript to their members, and then as much as the ports take. A text that does not end with its last
    /// line is put up to that line, and fails.
    pub(crate) fn put_text(&mut self, setup: &Setup, text: &[u8]) -> Result<(), Failed>
        ensures whole { OnOk result (text_of_lines self.new.story.tale.told ≡ text_of_lines self.old.story.tale.told ++ text.now) }
        ensures part { IfErr result (λ _. IsBeginning (text_of_lines self.old.story.tale.told) (text_of_lines self.new.story.tale.told) text.now) }
        ensures brought { self.new.story.tale.brought ≡ self.old.story.tale.brought }
        ensures frames { ((m : ℕ) → all_put self.old.story.tale.past m ≡ frames_of setup.now.members m self.old.story.tale.told)
            → (m : ℕ) → all_put self.new.story.tale.past m ≡ frames_of setup.now.members m self.new.story.tale.told }
        ensures joined { Joined self.old.story.tale.past self.old.table (O.came self.old.outside) (O.went self.old.outside) → Joined self.new.story.tale.past self.new.table (O.came self.new.outside) (O.went self.new.outside) }
        ensures cause { HasCause (O.faults self.old.outside + self.old.faults) (O.faults self.new.outside + self.new.faults) result }
    {
        let mut rest = text;
        while let Some((line, behind)) = cut_line(rest) {
            self.put_line(setup, line)?;
            rest = behind;
        }
        if !rest.is_empty() {
            return Err(self.fail());
        }
        self.flush_all();
        Ok(())
    }
}
