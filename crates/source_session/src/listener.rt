//! Our side of a session with a source: what each of its messages does, and what we send.
ghost use Rattle.std.specs.Prelude.{◌≡◌, ◌++◌, ◌⊎◌, None, true, OnOk};
ghost use Rattle.venue_words.specs.Conditions.{IsConfig};
ghost use Rattle.fix_write.specs.Framing.{frame_of};
ghost use Rattle.market_data.specs.Snapshots.{snapshot_of};
ghost use Rattle.source_session.specs.Messages.{first, is_over, on_fields};
ghost use Rattle.source_session.specs.Quotes.{quotes_meant, said_by, hears_frame};

use crate::bodies::{HEARTBEAT_SECONDS, fill_body, logon_body, reject_body, test_body};
use crate::message::{Asks, Outcome, on_fields};
use crate::names::Names;
use crate::quotes::push_quotes;
use crate::said::{Refused, Said};
use crate::state::{SourceEnd, SourcePhase, SourceState};
use fix_fields::{FieldFault, Frame, fields};
use fix_write::{Head, MessageType, frame};
use market_data::{SnapshotRefusal, read_snapshot};
use session_core::lookup::{kind_of, message_number, number_in, text_in};
use session_core::tags::{BEGIN_SEQ_NO, TEST_REQ_ID};
use session_core::{MessageFields, Request};
use std::alloc::Global;
use venue_words::{Config, NoMemory};

/// MsgType(35) of a MarketDataRequest.
const MARKET_DATA_REQUEST: u8 = b'V';

/// When something was heard and sent last, in milliseconds since 1970-01-01 00:00 UTC.
#[derive(Clone, Copy, Debug)]
struct Times {
    heard: i64,
    sent: i64,
    /// A TestRequest went out, and nothing came since.
    tested: bool,
}

/// Our side of a session.
#[derive(Drop)]
pub(crate) struct Listener {
    pub alloc: Global,
    pub names: Names,
    pub state: SourceState,
    times: Times,
    /// How many messages we sent.
    sent: u64,
    /// The body of the MarketDataRequest, or nothing.
    request: Vec<u8>,
}

/// Whether a message of this type refuses what we sent.
fn is_complaint(kind: MessageType) -> bool {
    matches!(
        kind,
        MessageType::Reject | MessageType::BusinessReject | MessageType::Other(b'Y')
    )
}

/// Whether so many seconds have passed.
fn has_passed(seconds: u64, before: i64, moment: i64) -> bool {
    i128::from(seconds) * 1_000 <= i128::from(moment) - i128::from(before)
}

impl Listener {
    /// A session at a moment, before anything is sent.
    pub fn new(alloc: Global, names: Names, request: Vec<u8>, moment: i64) -> Listener
        ensures names { result.names ≡ names }
        ensures state { result.state ≡ first }
    {
        Listener {
            alloc,
            names,
            state: SourceState::new(),
            times: Times {
                heard: moment,
                sent: moment,
                tested: false,
            },
            sent: 0,
            request,
        }
    }

    /// Appends the frame of a message with this number.
    fn push_frame(
        &self,
        kind: u8,
        number: u64,
        body: &[u8],
        moment: i64,
        out: &mut Vec<u8>,
    ) -> Result<(), NoMemory>
        ensures { OnOk result (out.new.items ≡ out.old.items
            ++ frame_of kind self.now.names.own self.now.names.source number moment None body.now) }
    {
        let head = Head {
            kind,
            sender: self.names.own.as_slice(),
            target: self.names.source.as_slice(),
            number,
            moment,
            first_sent: None,
        };
        let bytes = frame(self.alloc, &head, body)?;
        out.extend_from_slice(&bytes)?;
        Ok(())
    }

    /// Appends the frame of a message with our next number.
    fn send(
        &mut self,
        kind: u8,
        body: &[u8],
        moment: i64,
        out: &mut Vec<u8>,
    ) -> Result<(), NoMemory>
        ensures names { self.new.names ≡ self.old.names }
        ensures state { self.new.state ≡ self.old.state }
        ensures frame { OnOk result (out.new.items ≡ out.old.items
            ++ frame_of kind self.old.names.own self.old.names.source self.new.sent moment None body.now) }
    {
        self.sent = self.sent.saturating_add(1);
        self.times.sent = moment;
        let number = self.sent;
        self.push_frame(kind, number, body, moment, out)
    }

    /// Appends our Logon.
    pub fn log_on(&mut self, moment: i64, out: &mut Vec<u8>) -> Result<(), NoMemory>
        ensures names { self.new.names ≡ self.old.names }
        ensures state { self.new.state ≡ self.old.state }
    {
        let body = logon_body(self.alloc)?;
        self.send(MessageType::Logon.byte(), &body, moment, out)
    }

    /// Appends our MarketDataRequest, where something is asked for.
    fn ask(&mut self, moment: i64, out: &mut Vec<u8>) -> Result<(), NoMemory>
        ensures names { self.new.names ≡ self.old.names }
        ensures state { self.new.state ≡ self.old.state }
    {
        if self.request.is_empty() {
            return Ok(());
        }
        let body = Vec::from_slice(self.alloc, &self.request)?;
        self.send(MARKET_DATA_REQUEST, &body, moment, out)
    }

    /// Appends the SequenceReset that answers a ResendRequest: it has the first number that was asked for.
    fn fill(
        &mut self,
        request: &Request<'_>,
        moment: i64,
        out: &mut Vec<u8>,
    ) -> Result<(), NoMemory>
        ensures names { self.new.names ≡ self.old.names }
        ensures state { self.new.state ≡ self.old.state }
    {
        let begin = number_in(BEGIN_SEQ_NO, &request.fields).unwrap_or(1);
        let body = fill_body(self.alloc, self.sent.saturating_add(1))?;
        let kind = MessageType::SequenceReset.byte();
        self.push_frame(kind, u64::from(begin), &body, moment, out)
    }

    /// Takes a snapshot. One that is refused is rejected and told, and says nothing.
    fn take_snapshot(
        &mut self,
        config: &Config,
        request: &Request<'_>,
        moment: i64,
        said: &mut Said,
    ) -> Result<(), NoMemory>
        requires { IsConfig config.now }
        ensures names { self.new.names ≡ self.old.names }
        ensures state { self.new.state ≡ self.old.state }
        ensures quotes { OnOk result (said.new.quotes.items
            ≡ said.old.quotes.items ++ quotes_meant (snapshot_of request.now.fields config.now)) }
    {
        match read_snapshot(self.alloc, request, config) {
            Ok(snapshot) => push_quotes(&mut said.quotes, &snapshot),
            Err(SnapshotRefusal::Reject { reason, tag }) => {
                let refused = Refused {
                    number: request.number,
                    tag,
                    reason,
                };
                said.refused.push(refused)?;
                let body = reject_body(self.alloc, refused)?;
                self.send(MessageType::Reject.byte(), &body, moment, &mut said.replies)
            }
            Err(SnapshotRefusal::NoMemory) => Err(NoMemory),
        }
    }

    /// Does what a message asks.
    fn answer(
        &mut self,
        config: &Config,
        asks: Asks,
        request: &Request<'_>,
        moment: i64,
        said: &mut Said,
    ) -> Result<(), NoMemory>
        requires { IsConfig config.now }
        ensures names { self.new.names ≡ self.old.names }
        ensures state { self.new.state ≡ self.old.state }
        ensures quotes { OnOk result (said.new.quotes.items
            ≡ said.old.quotes.items ++ said_by config.now asks request.now.fields) }
    {
        match asks {
            Asks::Nothing => {
                if is_complaint(request.kind) {
                    said.complains = true;
                }
                Ok(())
            }
            Asks::Begin => self.ask(moment, &mut said.replies),
            Asks::Heartbeat => {
                let body = test_body(self.alloc, text_in(TEST_REQ_ID, &request.fields))?;
                let kind = MessageType::Heartbeat.byte();
                self.send(kind, &body, moment, &mut said.replies)
            }
            Asks::Fill => self.fill(request, moment, &mut said.replies),
            Asks::Quotes => self.take_snapshot(config, request, moment, said),
            Asks::Logout => {
                self.send(MessageType::Logout.byte(), b"", moment, &mut said.replies)
            }
        }
    }

    /// Works the fields of a message.
    fn take_fields(
        &mut self,
        config: &Config,
        fields: MessageFields<'_>,
        moment: i64,
        said: &mut Said,
    ) -> Result<(), NoMemory>
        requires { IsConfig config.now }
        ensures names { self.new.names ≡ self.old.names }
        ensures state { OnOk result (self.new.state ≡ (on_fields self.old.names self.old.state fields.entry).state) }
        ensures quotes { OnOk result (said.new.quotes.items ≡ said.old.quotes.items
            ++ said_by config.now (on_fields self.old.names self.old.state fields.entry).asks fields.entry) }
    {
        let Outcome { state, asks } = on_fields(&self.names, self.state, &fields);
        self.state = state;
        let request = Request {
            number: message_number(&fields).unwrap_or(0),
            kind: kind_of(&fields),
            fields,
        };
        self.answer(config, asks, &request, moment, said)
    }

    /// Works a frame that came at a moment.
    #[tactic(auto, unfolding(crate::specs::Quotes::hears_frame))]
    pub fn take(
        &mut self,
        config: &Config,
        frame: Frame<'_>,
        moment: i64,
        said: &mut Said,
    ) -> Result<(), NoMemory>
        requires { IsConfig config.now }
        ensures names { self.new.names ≡ self.old.names }
        ensures state { OnOk result (self.new.state
            ≡ (hears_frame config.now self.old.names self.old.state frame.entry.bytes.now).state) }
        ensures quotes { OnOk result (said.new.quotes.items ≡ said.old.quotes.items
            ++ (hears_frame config.now self.old.names self.old.state frame.entry.bytes.now).quotes) }
    {
        self.times.heard = moment;
        self.times.tested = false;
        if self.state.phase.is_over() {
            return Ok(());
        }
        match fields(self.alloc, frame.content()) {
            Ok(list) => self.take_fields(config, MessageFields::of(list), moment, said),
            Err(FieldFault::NoMemory) => Err(NoMemory),
            Err(_) => Ok(()),
        }
    }

    /// The connection ends.
    pub fn end(&mut self, end: SourceEnd)
        ensures names { self.new.names ≡ self.old.names }
        ensures over { is_over self.new.state.phase ≡ true }
    {
        self.state.phase = SourcePhase::Ended(end);
    }

    /// The clock says a moment: after three heartbeat intervals of silence the connection ends, after two a TestRequest goes out,
    /// and a Heartbeat where nothing was sent for one.
    pub fn tick(&mut self, moment: i64, out: &mut Vec<u8>) -> Result<(), NoMemory>
        ensures names { self.new.names ≡ self.old.names }
        ensures state { (self.new.state ≡ self.old.state) ⊎ (is_over self.new.state.phase ≡ true) }
    {
        let Times {
            heard,
            sent,
            tested,
        } = self.times;
        if has_passed(3 * HEARTBEAT_SECONDS, heard, moment) {
            self.end(SourceEnd::Silent);
            return Ok(());
        }
        if self.state.phase != SourcePhase::Up {
            return Ok(());
        }
        if !tested && has_passed(2 * HEARTBEAT_SECONDS, heard, moment) {
            self.times.tested = true;
            let body = test_body(self.alloc, b"QUIET")?;
            return self.send(MessageType::TestRequest.byte(), &body, moment, out);
        }
        if has_passed(HEARTBEAT_SECONDS, sent, moment) {
            return self.send(MessageType::Heartbeat.byte(), b"", moment, out);
        }
        Ok(())
    }
}
