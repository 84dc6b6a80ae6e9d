//! Calls of an object in memory, counted, and which of them fail.
ghost use Rattle.std.specs.Prelude.{◌≡◌, ◌≤◌, ℕ, false, is_ok, OnErr, IfOk};
ghost use Rattle.venue_words.specs.Causes.{HasCause, Rose};

use crate::edge::Failed;
use std::alloc::AllocError;

/// Counts the calls of an object in memory, and says which of them fail.
#[derive(Drop)]
pub struct Calls {
    fails: Vec<u64>,
    made: u64,
    /// How many have failed; the count stays at its last value.
    pub faults: u64,
}

impl Calls {
    /// No call was made yet. `fails` lists the numbers of those that fail, counted from 1.
    pub fn new(fails: Vec<u64>) -> Calls
        ensures { result.faults ≡ 0 }
    {
        Calls {
            fails,
            made: 0,
            faults: 0,
        }
    }

    /// Counts a fault.
    pub fn fail(&mut self) -> Failed
        ensures later { self.old.faults ≤ self.new.faults }
        ensures rose { Rose self.old.faults self.new.faults }
    {
        self.faults = self.faults.saturating_add(1);
        Failed
    }

    /// Counts a call, which fails where its number is listed.
    pub fn call(&mut self) -> Result<(), Failed>
        ensures { HasCause self.old.faults self.new.faults result }
    {
        self.made = self.made.saturating_add(1);
        if self.fails.contains(&self.made) {
            return Err(self.fail());
        }
        Ok(())
    }

    /// What was made with memory, whose want counts as a fault.
    pub fn kept<T: Drop>(&mut self, made: Result<T, AllocError>) -> Result<T, Failed>
        ensures cause { HasCause self.old.faults self.new.faults result }
        ensures same { IfOk result (λ x. made ≡ Ok x) }
        ensures err { OnErr made (is_ok result ≡ false) }
    {
        match made {
            Ok(value) => Ok(value),
            Err(_) => Err(self.fail()),
        }
    }
}
