//! What holds of every session over a stream, whatever is answered. Each law is the contract of a function that does
//! nothing.
ghost use Rattle.session_stream.specs.Laws.{AnyCut, OverRests, AnswersChangeNothing};

/// However the stream is cut into pieces, the same comes of it.
pub fn any_cut()
    ensures { AnyCut }
{}

/// To a session that is over no frame does anything.
pub fn over_rests()
    ensures { OverRests }
{}

/// What is answered changes nothing of what the session hands out, nor of how it ends.
pub fn answers_change_nothing()
    ensures { AnswersChangeNothing }
{}
