//! Laws of what a day's lines yield beside what `pegreplay` prints. Each is the contract of a function that does nothing.
ghost use Rattle.live_machine.specs.Transcript.{OutputIsTranscript, JournalIsScript, OutputGoesOn, JournalGoesOn};

/// All that the lines of a journal yield is the text that `pegreplay` prints of them as a script.
pub fn output_is_transcript()
    ensures { OutputIsTranscript }
{}

/// A journal with a whole header is a script of which `pegreplay` refuses nothing.
pub fn journal_is_script()
    ensures { JournalIsScript }
{}

/// What is put in a day, after the lines that its journal had, is a run of the transcript of the journal at the day's end.
pub fn output_goes_on()
    ensures { OutputGoesOn }
{}

/// What is kept of a day's lines makes a journal of them with those before: each line is taken after the ones before it.
pub fn journal_goes_on()
    ensures { JournalGoesOn }
{}
