//! The lines behind the header of a script, worked one after the other.
ghost use Rattle.std.specs.Prelude.{List, ◌≡◌, ◌<◌, ◌≤◌, ◌+◌, ◌++◌, ◌↔◌, [], Some, Err, IfOk, OnOk, IfErr, IsTrue, length, slice_get};
ghost use Rattle.script_text.specs.Body.{IsLineOf, read_of};
ghost use Rattle.script_text.specs.Meets.{Meets};
ghost use Rattle.venue_words.specs.Conditions.{IsConfig};
ghost use Rattle.venue_words.specs.declared.limits.TheConstants.{MAX_LINE_BYTES};
ghost use Rattle.session_core.specs.Machine.{IsUp};
ghost use Rattle.member_gate.specs.Desks.{DeskView};
ghost use Rattle.script_text.specs.declared.fault.LineFault.{LineFault};
ghost use Rattle.replay_core.specs.Meets.{MeetsInPlace};
ghost use Rattle.replay_core.specs.PlayLine.{play_line, play_read};
ghost use Rattle.replay_core.specs.Playing.{Playing, before_body};
ghost use Rattle.replay_core.specs.Stages.{StandsFor};
ghost use Rattle.replay_core.specs.Summary.{summary_of};

use crate::news::News;
use crate::plain_floor::PlainFloor;
use crate::pulling::pull_all;
use crate::summary::Summary;
use crate::working::work_read;
use line_work::{LineWorker, fault_at, refusal_at};
use script_text::{Line, LineFault, read_line};
use std::alloc::Global;
use std::marker::Model;
use std::sync::ledger::Ledger;
use venue_words::{Config, NoMemory, Report, Steps};

/// Works the lines behind a header, over any floor of one thread.
pub struct Player<F: PlainFloor> {
    alloc: Global,
    worker: LineWorker,
    floor: F,
    news: News,
    /// The fault of the first refused line, at which the player stands from then on.
    fault: Option<LineFault>,
}

// Written out, so that crates above let go of one by this theorem, and not part by part.
impl<F: PlainFloor> Drop for Player<F> {
    fn drop(self) {
        let Player {
            alloc: _,
            worker: _,
            floor: _,
            news: _,
            fault: _,
        } = self;
    }
}

impl<F: PlainFloor> Model for Player<F> {
    ghost use Rattle.std.specs.Prelude.{◌≡◌, length};
    ghost use Rattle.venue_words.specs.Conditions.{IsConfig};
    ghost use Rattle.replay_core.specs.News.{AreRows};
    ghost use Rattle.replay_core.specs.PlainFloor.{IsPlain};
    ghost use Rattle.replay_core.specs.Stages.{Kept, kept_of};

    ghost Value = { Kept F };

    ghost view = { λ p. kept_of p.worker p.floor p.news.fronts.items p.fault };

    ghost invariant = { λ p. IsConfig p.worker.config
        × IsPlain F.mark F.at F.step_limit F.state p.worker.config (F.mark p.floor)
        × (length p.news.fronts.items ≡ length p.worker.config.symbols)
        × AreRows (length p.worker.config.members) (length p.worker.config.symbols) p.news.asked.items };
}

impl<F: PlainFloor> Player<F> {
    /// A player behind a header: no member has connected, and no book has taken anything.
    pub fn new(alloc: Global, config: Config) -> Result<Player<F>, NoMemory>
        requires { IsConfig config }
        ensures { IfOk result (λ player. StandsFor F.at player (before_body config)) }
    {
        let floor = F::open(alloc, &config)?;
        let news = News::new(alloc, &config)?;
        let worker = LineWorker::new(alloc, config)?;
        Ok(Player {
            alloc,
            worker,
            floor,
            news,
            fault: None,
        })
    }

    /// Reads a line, without its LF, by the config of the header. Nothing is done. A fault is that of line 1.
    pub fn read(&self, text: &[u8]) -> Result<Line, LineFault>
        ensures line { Meets (read_of self.now.worker.config text.now) result }
        ensures configured { IfOk result (IsLineOf self.now.worker.config) }
    {
        read_line(self.alloc, text, self.worker.config())
    }

    /// Works what a line says, and gives its output.
    fn play<L: Ledger>(
        &mut self,
        line: u32,
        read: Line,
        out: &mut Vec<u8>,
        steps: &mut Steps<L>,
    ) -> Result<(), LineFault>
        requires read { IsLineOf self.old.worker.config read }
        requires empty { out.old.items ≡ [] }
        ensures answer { (playing : Playing) → StandsFor F.at self.old playing
            → MeetsInPlace (StandsFor F.at) (play_read line playing read).result result self.new out.new.items }
        ensures steps { (playing : Playing) → StandsFor F.at self.old playing
            → steps.new ≤ steps.old + (play_read line playing read).steps }
        ensures fault { self.new.fault ≡ self.old.fault }
    {
        let own = match work_read(&mut self.worker, &mut self.floor, read, out, steps) {
            Ok(own) => own,
            Err(refusal) => return Err(refusal_at(line, refusal)),
        };
        self.news.look(&self.floor, own);
        match pull_all(&mut self.worker, &mut self.floor, &self.news, out) {
            Ok(()) => Ok(()),
            Err(_) => Err(LineFault::NoMemory),
        }
    }

    /// Reads a line and works what it says, and gives its output.
    fn play_text<L: Ledger>(
        &mut self,
        line: u32,
        text: &[u8],
        out: &mut Vec<u8>,
        steps: &mut Steps<L>,
    ) -> Result<(), LineFault>
        requires { out.old.items ≡ [] }
        ensures answer { (playing : Playing) → StandsFor F.at self.old playing
            → MeetsInPlace (StandsFor F.at) (play_line line playing text.now).result result self.new out.new.items }
        ensures steps { (playing : Playing) → StandsFor F.at self.old playing
            → steps.new ≤ steps.old + (play_line line playing text.now).steps }
        ensures fault { self.new.fault ≡ self.old.fault }
    {
        match self.read(text) {
            Ok(read) => self.play(line, read, out, steps),
            Err(fault) => Err(fault_at(line, fault)),
        }
    }

    /// Works what a line of this number says, which `read` gave, as `line` works its text.
    pub fn work<L: Ledger>(
        &mut self,
        line: u32,
        read: Line,
        out: &mut Vec<u8>,
        steps: &mut Steps<L>,
    ) -> Result<(), LineFault>
        requires read { IsLineOf self.old.worker.config read }
        requires empty { out.old.items ≡ [] }
        ensures answer { (playing : Playing) → StandsFor F.at self.old playing
            → MeetsInPlace (StandsFor F.at) (play_read line playing read).result result self.new out.new.items }
        ensures steps { (playing : Playing) → StandsFor F.at self.old playing
            → steps.new ≤ steps.old + (play_read line playing read).steps }

        // A fault is not forgotten.
        ensures fault { IfErr result (λ fault. self.new.fault ≡ Some fault) }
        ensures again { (fault : LineFault) → self.old.fault ≡ Some fault → result ≡ Err fault }
        ensures quiet { (fault : LineFault) → self.old.fault ≡ Some fault
            → (self.new ≡ self.old) × (out.new.items ≡ []) × (steps.new ≡ steps.old) }
    {
        if let Some(fault) = self.fault {
            return Err(fault);
        }
        match self.play(line, read, out, steps) {
            Ok(()) => Ok(()),
            Err(stop) => {
                self.fault = Some(stop);
                Err(stop)
            }
        }
    }

    /// Works a line of a script, of this number and without its LF, and gives its output. After a fault the player stands at
    /// that fault: every later line is answered with it, and nothing is done.
    pub fn line<L: Ledger>(
        &mut self,
        line: u32,
        text: &[u8],
        out: &mut Vec<u8>,
        steps: &mut Steps<L>,
    ) -> Result<(), LineFault>
        requires { out.old.items ≡ [] }
        ensures answer { (playing : Playing) → StandsFor F.at self.old playing
            → MeetsInPlace (StandsFor F.at) (play_line line playing text.now).result result self.new out.new.items }
        ensures steps { (playing : Playing) → StandsFor F.at self.old playing
            → steps.new ≤ steps.old + (play_line line playing text.now).steps }

        // A fault is not forgotten.
        ensures fault { IfErr result (λ fault. self.new.fault ≡ Some fault) }
        ensures again { (fault : LineFault) → self.old.fault ≡ Some fault → result ≡ Err fault }
        ensures quiet { (fault : LineFault) → self.old.fault ≡ Some fault
            → (self.new ≡ self.old) × (out.new.items ≡ []) × (steps.new ≡ steps.old) }
    {
        if let Some(fault) = self.fault {
            return Err(fault);
        }
        match self.play_text(line, text, out, steps) {
            Ok(()) => Ok(()),
            Err(fault) => {
                self.fault = Some(fault);
                Err(fault)
            }
        }
    }

    /// The config of the header.
    pub fn config(&self) -> &Config
        ensures same { result.now ≡ self.now.worker.config }
        ensures config { IsConfig result.now }
    {
        self.worker.config()
    }

    /// How many events the book of a symbol has taken.
    pub fn events(&self, symbol: u32) -> usize
        requires { symbol < length self.now.worker.config.symbols }
        ensures { result ≡ length (F.at self.now.floor symbol).journal }
    {
        self.floor.events(symbol)
    }

    /// The reports of a symbol's events.
    pub fn reports(&self, symbol: u32) -> &[Report]
        requires { symbol < length self.now.worker.config.symbols }
        ensures { result.now ≡ (F.at self.now.floor symbol).reports }
    {
        self.floor.reports(symbol)
    }

    /// Whether a member's session is up.
    pub fn is_up(&self, member: u32) -> bool
        ensures { (desk : DeskView) → slice_get self.now.worker.desks member ≡ Some desk → (IsTrue result ↔ IsUp desk.session) }
    {
        self.worker.is_up(member)
    }

    /// What the book of the first symbol came to; all 0 where there is no symbol.
    pub fn summary(&self) -> Summary
        ensures { (playing : Playing) → StandsFor F.at self.now playing → result ≡ summary_of playing }
    {
        if self.worker.config().symbols.is_empty() {
            return Summary::of(0, &[], 0, 0);
        }
        Summary::of(
            self.floor.events(0),
            self.floor.reports(0),
            self.floor.resting(0),
            self.floor.groups(0),
        )
    }
}
