//! What is kept of the messages that were sent.
ghost use Rattle.std.specs.Prelude.{◌≡◌, ◌+◌, ◌^◌, ◌<◌, ◌≤◌, ◌++◌, IfOk, OnOk, OnErr, vec_len, vec_capacity, replicate};
ghost use Rattle.session_core.specs.Sent.{no_places, places_from};

use crate::message_list::MessageList;
use fix_write::MessageType;
use std::alloc::Global;
use std::marker::Model;
use std::mem::size_of;
use venue_words::NoMemory;

/// An application message that is kept, with its body where it stands.
#[derive(Drop)]
pub(crate) struct Stored<'a> {
    pub kind: MessageType,
    pub body: &'a [u8],
    pub moment: i64,
}

impl<'a> Model for Stored<'a> {
    ghost use Rattle.session_core.specs.declared.message.Kept.{Kept};

    ghost Value = { Kept };

    ghost view = { λ s. record { message = record { kind = s.kind; body = s.body.now }; moment = s.moment } };
}

/// Which of the application messages was sent under a number, if one was.
type Place = Option<u32>;

// A session that only beats grows by as much with each message.
const _: () = prove!(size_of::<Place>() == 8);

/// A count of messages in four bytes. More than 4,294,967,295 messages would want more memory than there is.
fn small_count(count: usize) -> Result<u32, NoMemory>
    ensures { IfOk result (λ small. small ≡ count) }
{
    match u32::try_from(count) {
        Ok(small) => Ok(small),
        Err(_) => Err(NoMemory),
    }
}

/// Adds so many times nothing. Nothing changes where memory is wanted.
fn push_none(places: &mut Vec<Place>, count: usize) -> Result<(), NoMemory>
    ensures ok { OnOk result (places.new.items ≡ places.old.items ++ no_places count) }
    ensures err { OnErr result (places.new.items ≡ places.old.items) }
{
    places.reserve(count)?;
    for i in 0..count {
        places.push_reserved(None);
    }
    Ok(())
}

/// Adds places from one on, for which there is room, and for each of them the moment.
fn push_places(places: &mut Vec<Place>, moments: &mut Vec<i64>, first: u32, count: u32, moment: i64)
    requires small { first + count < 2 ^ 32 }
    requires room { vec_len places.old + count ≤ vec_capacity places.old }
    requires room_of_moments { vec_len moments.old + count ≤ vec_capacity moments.old }
    ensures places { places.new.items ≡ places.old.items ++ places_from first count }
    ensures moments { moments.new.items ≡ moments.old.items ++ replicate count moment }
{
    for i in 0..count {
        places.push_reserved(Some(first + i));
        moments.push_reserved(moment);
    }
}

/// What is kept of each message that was sent: an application message whole, and of a message of the session nothing.
/// Contracts see it as a list of these.
#[derive(Drop)]
pub(crate) struct SentMessages {
    /// The application messages.
    messages: MessageList,
    /// When each of them was first sent, in milliseconds since 1970-01-01 00:00 UTC.
    moments: Vec<i64>,
    /// By number from 1 on, which of the application messages was sent. A message of the session has its eight bytes here, and
    /// nothing else.
    places: Vec<Place>,
}

impl Model for SentMessages {
    ghost use Rattle.std.specs.Prelude.{◌≡◌, List, Option, length, All};
    ghost use Rattle.session_core.specs.declared.message.Kept.{Kept};
    ghost use Rattle.session_core.specs.Sent.{IsAmong, entries_in};

    ghost Value = { List (Option Kept) };

    ghost view = { λ s. entries_in s.messages s.moments.items s.places.items };

    ghost invariant = { λ s. record {
      among : All (IsAmong (length s.messages)) s.places.items;
      each : length s.moments.items ≡ length s.messages;
    } };
}

impl SentMessages {
    ghost use Rattle.std.specs.Prelude.{◌≡◌, ◌<◌, ◌^◌, ◌++◌, ◌∷◌, [], OnOk, OnErr, length, get_or};
    ghost use Rattle.session_core.specs.Bodies.{message};
    ghost use Rattle.session_core.specs.Frames.{kept, all_kept, numbers};

    /// Nothing was sent. This takes no memory.
    pub fn new(alloc: Global) -> SentMessages
        ensures { result ≡ [] }
    {
        SentMessages {
            messages: MessageList::new(alloc),
            moments: Vec::new(alloc),
            places: Vec::new(alloc),
        }
    }

    /// How many messages were sent.
    pub fn len(&self) -> usize
        ensures count { result ≡ length self.now }
        ensures small { result < 2 ^ 63 }
    {
        self.places.len()
    }

    /// The message at a place, counted from 0, where it is an application message.
    pub fn get(&self, index: usize) -> Option<Stored<'_>>
        requires { index < length self.now }
        ensures { result ≡ get_or self.now index result }
    {
        match self.places[index] {
            None => None,
            Some(place) => {
                let message = self.messages.get(place as usize);
                Some(Stored {
                    kind: message.kind,
                    body: message.body,
                    moment: self.moments[place as usize],
                })
            }
        }
    }

    /// Keeps the numbers of so many messages of the session. Nothing changes where memory is wanted.
    pub fn push_numbers(&mut self, count: usize) -> Result<(), NoMemory>
        ensures ok { OnOk result (self.new ≡ self.old ++ numbers count) }
        ensures err { OnErr result (self.new ≡ self.old) }
    {
        push_none(&mut self.places, count)
    }

    /// Keeps an application message. Nothing changes where memory is wanted.
    pub fn push(&mut self, kind: MessageType, body: &[u8], moment: i64) -> Result<(), NoMemory>
        ensures ok { OnOk result (self.new ≡ self.old ++ kept moment (message kind body.now) ∷ []) }
        ensures err { OnErr result (self.new ≡ self.old) }
    {
        let place = small_count(self.messages.len())?;
        self.places.reserve(1)?;
        self.moments.reserve(1)?;
        self.messages.push(kind, body)?;
        self.places.push_reserved(Some(place));
        self.moments.push_reserved(moment);
        Ok(())
    }

    /// Keeps application messages. Nothing changes where memory is wanted.
    pub fn push_all(&mut self, messages: &MessageList, moment: i64) -> Result<(), NoMemory>
        ensures ok { OnOk result (self.new ≡ self.old ++ all_kept moment messages.now) }
        ensures err { OnErr result (self.new ≡ self.old) }
    {
        let first = small_count(self.messages.len())?;
        let count = small_count(messages.len())?;
        if count > u32::MAX - first {
            return Err(NoMemory);
        }
        self.places.reserve(count as usize)?;
        self.moments.reserve(count as usize)?;
        self.messages.append(messages)?;
        push_places(&mut self.places, &mut self.moments, first, count, moment);
        Ok(())
    }
}
