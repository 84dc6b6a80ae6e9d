//! Who is named in a feed.
ghost use Rattle.std.specs.Prelude.{◌≡◌, OnOk};
ghost use Rattle.feeds_core.specs.FeedLines.{named_by};
ghost use Rattle.feeds_core.specs.Naming.{Notes, has_name};

use script_text::Line;
use venue_words::NoMemory;

/// The first line of a feed that names a member. Lines are counted from 1, members from 0.
#[derive(Clone, Copy, Debug)]
pub struct Naming {
    pub member: u32,
    pub line: u32,
}

/// The member that a line names.
fn named_by(line: &Line) -> Option<u32>
    ensures { result ≡ named_by line.now }
{
    match line {
        Line::Piece { member, .. } | Line::Open { member } => Some(*member),
        Line::Moment(_) | Line::Quote { .. } => None,
    }
}

/// Whether a member was named.
fn has_name(named: &[Naming], member: u32) -> bool
    ensures { result ≡ has_name named.now member }
{
    named.iter().any(|one| one.member == member)
}

/// Notes whom the line of this number names, if he was not named before.
pub fn note(named: &mut Vec<Naming>, line: &Line, number: u32) -> Result<(), NoMemory>
    ensures { OnOk result (Notes (named_by line.now) number named.old.items named.new.items) }
{
    let Some(member) = named_by(line) else {
        return Ok(());
    };
    if !has_name(named.as_slice(), member) {
        named.push(Naming {
            member,
            line: number,
        })?;
    }
    Ok(())
}
