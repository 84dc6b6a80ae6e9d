//! Messages whose bodies stand in one list, one behind the other, so that a message costs no memory of its own, and all are
//! given back at once.
ghost use Rattle.std.specs.Prelude.{ℕ, List, ◌≡◌, ◌+◌, ◌^◌, ◌<◌, ◌≤◌, ◌++◌, ◌∷◌, [], OnOk, OnErr, length, map, All, vec_len, vec_capacity};
ghost use Rattle.session_core.specs.MessageLists.{IsWithin, messages_in, part_behind, moved};

use fix_write::MessageType;
use std::alloc::Global;
use std::marker::Model;
use venue_words::NoMemory;

/// A message without its body, which stands in the list of the bodies from `start` to before `end`.
#[derive(Clone, Copy, Debug)]
pub(crate) struct Part {
    kind: MessageType,
    start: usize,
    end: usize,
}

/// A message of a list, with its body where it stands.
#[derive(Debug, Drop)]
pub struct ListedMessage<'a> {
    /// MsgType(35).
    pub kind: MessageType,
    /// Its fields behind the head.
    pub body: &'a [u8],
}

impl<'a> Model for ListedMessage<'a> {
    ghost use Rattle.session_core.specs.declared.message.Message.{Message};

    ghost Value = { Message };

    ghost view = { λ m. record { kind = m.kind; body = m.body.now } };
}

/// Adds a message. Nothing changes where memory is wanted.
fn push_one(
    bodies: &mut Vec<u8>,
    parts: &mut Vec<Part>,
    kind: MessageType,
    body: &[u8],
) -> Result<(), NoMemory>
    ensures bodies { OnOk result (bodies.new.items ≡ bodies.old.items ++ body.now) }
    ensures parts { OnOk result (parts.new.items ≡ parts.old.items ++ part_behind bodies.old.items kind body.now ∷ []) }
    ensures same_bodies { OnErr result (bodies.new.items ≡ bodies.old.items) }
    ensures same_parts { OnErr result (parts.new.items ≡ parts.old.items) }
{
    parts.reserve(1)?;
    let start = bodies.len();
    bodies.extend_from_slice(body)?;
    parts.push_reserved(Part {
        kind,
        start,
        end: bodies.len(),
    });
    Ok(())
}

/// What lays the body of a message.
pub trait Body {
    /// The bytes of the body.
    ghost bytes: { Self → List ℕ };

    /// Appends the body. A refusal may leave anything.
    fn push_to(&self, out: &mut Vec<u8>) -> Result<(), NoMemory>
        ensures { OnOk result (out.new.items ≡ out.old.items ++ bytes self.now) };
}

/// Adds a message whose body is laid behind the others. A refusal may leave anything.
fn push_laid<B: Body>(
    bodies: &mut Vec<u8>,
    parts: &mut Vec<Part>,
    kind: MessageType,
    body: &B,
) -> Result<(), NoMemory>
    ensures bodies { OnOk result (bodies.new.items ≡ bodies.old.items ++ B.bytes body.now) }
    ensures parts { OnOk result (parts.new.items
        ≡ parts.old.items ++ part_behind bodies.old.items kind (B.bytes body.now) ∷ []) }
{
    let start = bodies.len();
    body.push_to(bodies)?;
    parts.push(Part {
        kind,
        start,
        end: bodies.len(),
    })?;
    Ok(())
}

/// Adds parts, for which there is room, of bodies with so many bytes in front.
fn push_moved(parts: &mut Vec<Part>, more: &[Part], front: usize)
    requires within { All (IsWithin (2 ^ 63)) more.now }
    requires front { front < 2 ^ 63 }
    requires room { vec_len parts.old + length more.now ≤ vec_capacity parts.old }
    ensures { parts.new.items ≡ parts.old.items ++ map (moved front) more.now }
{
    for part in more {
        parts.push_reserved(Part {
            kind: part.kind,
            start: front + part.start,
            end: front + part.end,
        });
    }
}

/// Messages whose bodies stand in one list. Contracts see it as the list of the messages.
#[derive(Debug)]
pub struct MessageList {
    bodies: Vec<u8>,
    parts: Vec<Part>,
}

// Written out, so that crates above let go of one by this theorem, and not part by part.
impl Drop for MessageList {
    fn drop(self) {
        let MessageList {
            bodies: _,
            parts: _,
        } = self;
    }
}

impl Model for MessageList {
    ghost use Rattle.std.specs.Prelude.{List, length, All};
    ghost use Rattle.session_core.specs.declared.message.Message.{Message};
    ghost use Rattle.session_core.specs.MessageLists.{IsWithin, messages_in};

    ghost Value = { List Message };

    ghost view = { λ m. messages_in m.bodies.items m.parts.items };

    ghost invariant = { λ m. All (IsWithin (length m.bodies.items)) m.parts.items };
}

impl MessageList {
    ghost use Rattle.std.specs.Prelude.{◌≡◌, ◌<◌, ◌^◌, ◌++◌, ◌∷◌, [], OnOk, OnErr, length, get_or};
    ghost use Rattle.session_core.specs.Bodies.{message};

    /// No message. This takes no memory.
    pub fn new(alloc: Global) -> MessageList
        ensures { result ≡ [] }
    {
        MessageList {
            bodies: Vec::new(alloc),
            parts: Vec::new(alloc),
        }
    }

    /// How many messages there are.
    pub fn len(&self) -> usize
        ensures count { result ≡ length self.now }
        ensures small { result < 2 ^ 63 }
    {
        self.parts.len()
    }

    /// The message at a place, counted from 0.
    pub fn get(&self, place: usize) -> ListedMessage<'_>
        requires { place < length self.now }
        ensures { result ≡ get_or self.now place result }
    {
        let part = self.parts[place];
        ListedMessage {
            kind: part.kind,
            body: &self.bodies[part.start..part.end],
        }
    }

    /// Adds a message. Nothing changes where memory is wanted.
    pub fn push(&mut self, kind: MessageType, body: &[u8]) -> Result<(), NoMemory>
        ensures ok { OnOk result (self.new ≡ self.old ++ message kind body.now ∷ []) }
        ensures err { OnErr result (self.new ≡ self.old) }
    {
        push_one(&mut self.bodies, &mut self.parts, kind, body)
    }

    /// Takes all messages away, and keeps the memory for others.
    pub fn clear(&mut self)
        ensures { self.new ≡ [] }
    {
        self.bodies.clear();
        self.parts.clear();
    }

    /// Adds a message, whose body is laid where it stays. Where memory is wanted no message is left.
    pub fn push_laid<B: Body>(&mut self, kind: MessageType, body: &B) -> Result<(), NoMemory>
        ensures ok { OnOk result (self.new ≡ self.old ++ message kind (B.bytes body.now) ∷ []) }
        ensures err { OnErr result (self.new ≡ []) }
    {
        match push_laid(&mut self.bodies, &mut self.parts, kind, body) {
            Ok(()) => Ok(()),
            Err(_) => {
                self.bodies.clear();
                self.parts.clear();
                Err(NoMemory)
            }
        }
    }

    /// Adds copies of all messages of a list. Nothing changes where memory is wanted.
    pub fn append(&mut self, messages: &MessageList) -> Result<(), NoMemory>
        ensures ok { OnOk result (self.new ≡ self.old ++ messages.now) }
        ensures err { OnErr result (self.new ≡ self.old) }
    {
        self.parts.reserve(messages.parts.len())?;
        let front = self.bodies.len();
        self.bodies.extend_from_slice(&messages.bodies)?;
        push_moved(&mut self.parts, &messages.parts, front);
        Ok(())
    }
}
