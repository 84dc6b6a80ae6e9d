//! That a journal keeps the lines that it has while a venue adds to it. It is the contract of a function that does nothing.
ghost use Rattle.journal_follow.specs.Files.{GrownKeepsLines};

/// A file that is changed only after its lines, as each append changes it, keeps them: so what a `JournalFile` has to tell of a
/// journal is true.
pub fn grown_keeps_lines()
    ensures { GrownKeepsLines }
{}
