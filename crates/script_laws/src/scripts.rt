//! Laws of what a script records, and of the load script.
ghost use Rattle.replay_core.specs.Loading.{LoadNeverFaults};
ghost use Rattle.script_laws.specs.Histories.{LinesRecordCommands, BodiesRecordCommands, ScriptsRecordCommands};

/// Behind any lines that were taken of a body, the journals hold exactly the commands of those lines, each once and in its order.
// Rules out a command that is recorded twice, for another symbol, out of turn or at another moment, and a session that takes
// other commands because of what it was sent.
pub fn lines_record_commands()
    ensures { LinesRecordCommands }
{}

/// The same of a whole body.
pub fn bodies_record_commands()
    ensures { BodiesRecordCommands }
{}

/// The same of a whole script, whose header is read first.
pub fn scripts_record_commands()
    ensures { ScriptsRecordCommands }
{}

/// Each line of the load script is taken, whatever its counts of orders and quotes up to their greatest ones: it has a whole
/// header, no line is bad or passes a limit, and it ends behind its last line.
pub fn load_never_faults()
    ensures { LoadNeverFaults }
{}
