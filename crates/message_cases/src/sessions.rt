//! Sessions of a member, and the stream that it sends.
use case_text::{Told, Words};
use fix_fields::{Frame, moment};
use fix_frames::{Framer, Next};
use fix_write::{MessageType, wrap};
use message_laws::work_all;
use session_core::{Input, Message, Request, Session, Turn};
use std::alloc::Global;
use std::mem::replace;
use venue_words::{Bytes, Items, NoMemory};

/// 2024-01-02 14:30:00 UTC, the moment at which all is done.
const START: i64 = 1_704_205_800_000;

const LOGON: &[u8] =
    b"35=A\x0149=A\x0156=PEGV\x0134=1\x0152=20240102-14:30:00\x0198=0\x01108=30\x011137=9\x01";

/// What lasts from line to line.
#[derive(Drop)]
pub struct Desk {
    /// The session of member A.
    session: Session,
    /// What A sends as a stream.
    framer: Framer,
}

impl Desk {
    /// A session that waits for its Logon.
    pub fn new(alloc: Global) -> Result<Desk, NoMemory> {
        Ok(Desk {
            session: Session::new(alloc, Bytes::copy_of(alloc, b"A")?),
            framer: Framer::new(alloc),
        })
    }

    /// A session that took its Logon.
    pub fn logged_on(alloc: Global) -> Result<Desk, NoMemory> {
        let frame = wrap(alloc, LOGON)?;
        let mut desk = Desk::new(alloc)?;
        let turn = desk.take(frame.as_slice());
        drop(turn?);
        Ok(desk)
    }

    /// What a frame gives behind the Logon.
    pub fn turn_behind_logon<'a>(alloc: Global, frame: &'a [u8]) -> Result<Turn<'a>, NoMemory> {
        let mut desk = Desk::logged_on(alloc)?;
        let turn = desk.take(frame);
        drop(desk);
        turn
    }

    /// What a frame gives.
    pub fn take<'a>(&mut self, frame: &'a [u8]) -> Result<Turn<'a>, NoMemory> {
        match Frame::over(frame) {
            Some(frame) => self.session.take(frame, START),
            None => Err(NoMemory),
        }
    }

    /// Tells what the frame of a content gives.
    fn take_content(&mut self, content: &[u8], told: &mut Told) -> Result<(), NoMemory> {
        let frame = wrap(told.alloc, content)?;
        tell_turn(&self.take(frame.as_slice())?, told);
        Ok(())
    }

    /// Tells what this moment gives.
    fn tick(&mut self, moment: i64, told: &mut Told) -> Result<(), NoMemory> {
        tell_turn(&self.session.tick(moment)?, told);
        Ok(())
    }

    fn send(&mut self, input: &[u8], told: &mut Told) -> Result<(), NoMemory> {
        let words = Words::new(told.alloc, input)?;
        if !self.session.is_up() {
            told.word("not up");
            return Ok(());
        }
        let kind = MessageType::of_byte(words.byte(b"kind"));
        let body = words.value(b"body").unwrap_or(&[]);
        let frame = self.session.send(kind, body, START)?;
        told.line(frame.as_slice());
        Ok(())
    }

    fn phase(&self) -> &'static str {
        if self.session.is_up() {
            "up"
        } else if self.session.is_over() {
            "over"
        } else {
            "new"
        }
    }

    /// Tells what the framer finds behind a piece of the stream.
    fn feed(&mut self, piece: &[u8], told: &mut Told) -> Result<(), NoMemory> {
        self.framer.feed(piece)?;
        for _ in 0..100 {
            match self.framer.next() {
                Next::Frame(frame) => told.line(frame.as_slice()),
                Next::Wait => break,
                Next::TooLong => {
                    told.word("too long");
                    break;
                }
            }
        }
        Ok(())
    }

    /// Tells what the session hears behind a piece of the stream.
    fn hear(&mut self, piece: &[u8], told: &mut Told) -> Result<(), NoMemory> {
        self.framer.feed(piece)?;
        for _ in 0..100 {
            match self.framer.next() {
                Next::Frame(frame) => tell_turn(&self.session.take(frame, START)?, told),
                Next::Wait => break,
                Next::TooLong => {
                    tell_turn(&self.session.too_long(START)?, told);
                    break;
                }
            }
        }
        Ok(())
    }

    /// Works one input of each kind, and tells each turn.
    fn work_all(&mut self, told: &mut Told) -> Result<(), NoMemory> {
        let body = Bytes::copy_of(told.alloc, b"37=X-2\x01")?;
        let messages = Items(vec![in told.alloc;
            Message {
                kind: MessageType::ExecutionReport,
                body
            },
        ]?);
        let moment = START;
        let inputs = [
            Input::Reject {
                number: 7,
                kind: MessageType::NewOrder,
                tag: 38,
                reason: 1,
                moment,
            },
            Input::Send { messages, moment },
            Input::Tick { moment },
            Input::TooLong { moment },
            Input::Tick { moment },
            Input::Connection,
        ];
        for turn in work_all(told.alloc, &mut self.session, &inputs)?.as_slice() {
            told.push("\n  turn:");
            match turn {
                Ok(turn) => tell_turn(turn, told),
                Err(_) => told.push(" no memory"),
            }
        }
        Ok(())
    }
}

/// Tells a message that is handed out.
fn tell_request(request: &Request<'_>, told: &mut Told) {
    told.push("\n  message ");
    told.show(&request.number);
    told.push(" of ");
    told.show(&request.fields.as_slice().len());
    told.push(" fields and type ");
    told.bytes(&[request.kind.byte()]);
}

/// Tells the replies of a turn, what it hands out, and why the connection ended.
fn tell_turn(turn: &Turn<'_>, told: &mut Told) {
    told.lines(turn.replies.as_slice());
    if let Some(request) = &turn.request {
        tell_request(request, told);
    }
    if let Some(cause) = turn.ended {
        told.push("\n  ended");
        told.code(&cause);
    }
}

/// `session` and `logged_on` begin anew, and the other words go on with that session.
pub fn play(desk: &mut Desk, word: &str, input: &[u8], told: &mut Told) -> Result<bool, NoMemory> {
    let alloc = told.alloc;
    match word {
        "session" => drop(replace(desk, Desk::new(alloc)?)),
        "logged_on" => drop(replace(desk, Desk::logged_on(alloc)?)),
        "take" => desk.take_content(input, told)?,
        "send" => desk.send(input, told)?,
        "open" => desk.session.open(),
        "tick" => desk.tick(moment(input).unwrap_or(0), told)?,
        "phase" => told.word(desk.phase()),
        "feed" => desk.feed(input, told)?,
        "hear" => desk.hear(input, told)?,
        "inputs" => desk.work_all(told)?,
        _ => return Ok(false),
    }
    Ok(true)
}
