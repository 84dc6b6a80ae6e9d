//! The fields of a message, and where a look for a tag among them begins.
ghost use Rattle.std.specs.Prelude.{◌≡◌};
ghost use Rattle.session_core.specs.Starts.{AreInTime};

use crate::lookup::value_in;
use fix_fields::Field;
use std::marker::Model;

/// How many of these fields stand before the first whose tag has a remainder by 64, for each: 255 where there are as many,
/// and where no tag has it.
fn starts_of(fields: &[Field<'_>]) -> [u8; 64]
    ensures { AreInTime result fields.now }
{
    let mut starts = [u8::MAX; 64];
    for place in 0..fields.len().min(255) {
        let field = &fields[place];
        let remainder = (field.tag % 64) as usize;
        starts[remainder] = starts[remainder].min(place as u8);
    }
    starts
}

/// The fields of a message, in their order. A look for a tag begins at the first field whose tag has the same remainder
/// by 64, which is mostly its own. Contracts see the list of the fields.
#[derive(Debug, Drop)]
pub struct MessageFields<'a> {
    list: Vec<Field<'a>>,
    starts: [u8; 64],
}

impl<'a> Model for MessageFields<'a> {
    ghost use Rattle.std.specs.Prelude.{List};
    ghost use Rattle.fix_fields.specs.declared.field.Field.{Field};
    ghost use Rattle.session_core.specs.Starts.{AreInTime};

    ghost Value = { List Field };

    ghost view = { λ f. f.list.items };

    ghost invariant = { λ f. AreInTime f.starts f.list.items };
}

impl<'a> MessageFields<'a> {
    ghost use Rattle.std.specs.Prelude.{◌≡◌, ◌≤◌, ℕ, None, take, length, is_some};
    ghost use Rattle.std.specs.Option.{option_copied};
    ghost use Rattle.session_core.specs.Lookup.{value_of};

    /// The fields of a message, over their list.
    pub fn of(list: Vec<Field<'a>>) -> MessageFields<'a>
        ensures { result ≡ list.entry.items }
    {
        let starts = starts_of(&list);
        MessageFields { list, starts }
    }

    /// All fields, in their order.
    pub fn as_slice(&self) -> &[Field<'a>]
        ensures { result.now ≡ self.now }
    {
        &self.list
    }

    /// How many fields a look for the tag passes over.
    fn start_of(&self, tag: u32) -> usize
        ensures within { result ≤ length self.now }
        ensures in_time { (count : ℕ) → count ≤ result → value_of tag (take count self.now) ≡ None }
    {
        usize::from(self.starts[(tag % 64) as usize]).min(self.list.len())
    }

    /// The fields that a look for the tag goes through.
    pub(crate) fn rest_for(&self, tag: u32) -> &[Field<'a>]
        ensures { value_of tag result.now ≡ value_of tag self.now }
    {
        &self.list[self.start_of(tag)..]
    }

    /// The value of a tag.
    pub fn value_of(&self, tag: u32) -> Option<&'a [u8]>
        ensures { option_copied result ≡ value_of tag self.now }
    {
        value_in(tag, self.rest_for(tag))
    }

    /// Whether a tag stands among the first so many fields.
    pub(crate) fn stands_before(&self, tag: u32, place: usize) -> bool
        requires { place ≤ length self.now }
        ensures { result ≡ is_some (value_of tag (take place self.now)) }
    {
        let start = self.start_of(tag);
        start < place && value_in(tag, &self.list[start..place]).is_some()
    }
}
