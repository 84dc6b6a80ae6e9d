//! Who gets copies of whose reports.
ghost use Rattle.std.specs.Prelude.{◌≡◌, ◌≤◌, ◌++◌, ◌∷◌, [], if◌then◌else◌, length, option_map, IfOk, IfSome, OnOk, string_bytes};
ghost use Rattle.program_words.specs.Words.{texts};
ghost use Rattle.venue_words.specs.Conditions.{IsConfig};
ghost use Rattle.drop_copy.specs.Desks.{AreConfigured, AreRising};
ghost use Rattle.drop_copy.specs.Plans.{are_distinct, are_members, is_among, listed_members, members_of};

use crate::names::name_at;
use script_text::words::is_name;
use std::alloc::Global;
use venue_words::{Bytes, Config, NoMemory};

/// What the words of a run say of a drop session.
#[derive(Debug, Drop)]
pub struct DropPlan {
    /// The address at which its one connection is taken.
    pub address: String,
    /// The name of the session: it is no member's.
    pub name: String,
    /// The names of the members whose reports are copied.
    pub members: Vec<String>,
}

/// Whether a configured name is this one.
fn is_member(members: &[Bytes], word: &[u8]) -> bool
    ensures { result ≡ is_among members.now word.now }
{
    members.iter().any(|name| name.as_slice() == word)
}

/// Whether a name is among the words.
fn is_listed(words: &[String], name: &[u8]) -> bool
    ensures { result ≡ is_among (texts words.now) name.now }
{
    for word in words {
        if word.as_bytes() == name {
            return true;
        }
    }
    false
}

/// Whether every word is a member's name.
fn are_members(members: &[Bytes], words: &[String]) -> bool
    ensures { result ≡ are_members members.now (texts words.now) }
{
    for word in words {
        if !is_member(members, word.as_bytes()) {
            return false;
        }
    }
    true
}

/// Whether no word stands twice.
fn are_distinct(words: &[String]) -> bool
    ensures { result ≡ are_distinct (texts words.now) }
{
    for place in 0..words.len() {
        if is_listed(&words[place + 1..], words[place].as_bytes()) {
            return false;
        }
    }
    true
}

/// Adds a member's number where his name is among the words.
fn push_listed(
    numbers: &mut Vec<u32>,
    words: &[String],
    name: &[u8],
    number: u32,
) -> Result<(), NoMemory>
    ensures { OnOk result (numbers.new.items
        ≡ numbers.old.items ++ (if is_among (texts words.now) name.now then number ∷ [] else [])) }
{
    if is_listed(words, name) {
        numbers.push(number)?;
    }
    Ok(())
}

/// The numbers of the members whose names are among the words, in rising order.
fn listed_members(alloc: Global, members: &[Bytes], words: &[String]) -> Result<Vec<u32>, NoMemory>
    requires { length members.now ≤ 256 }
    ensures { IfOk result (λ numbers. numbers.items ≡ listed_members members.now (texts words.now)) }
{
    let mut numbers = Vec::new(alloc);
    for number in 0..members.len() {
        let name = name_at(members, number as u32);
        push_listed(&mut numbers, words, name, number as u32)?;
    }
    Ok(numbers)
}

/// The numbers of the listed members, in rising order, where the plan is lawful: the session's name has the form of a name and is
/// no member's, and the words are members' names, none of which stands twice.
#[tactic(auto, unfolding(crate::specs::Plans::is_lawful))]
pub fn drop_members(
    alloc: Global,
    plan: &DropPlan,
    config: &Config,
) -> Result<Option<Vec<u32>>, NoMemory>
    requires { IsConfig config.now }

    // Numbers come exactly where the plan is lawful, and then those of the listed members.
    ensures numbers { IfOk result (λ numbers. option_map (λ list. list.items) numbers
        ≡ members_of config.now.members (string_bytes plan.now.name) (texts plan.now.members.items)) }

    // They are as a drop desk needs them.
    ensures configured { IfOk result (λ numbers. IfSome numbers (λ list. AreConfigured list.items config.now)) }
    ensures rising { IfOk result (λ numbers. IfSome numbers (λ list. AreRising list.items)) }
{
    let members = config.members.as_slice();
    let name = plan.name.as_bytes();
    if !is_name(name) || is_member(members, name) {
        return Ok(None);
    }
    if !are_members(members, &plan.members) || !are_distinct(&plan.members) {
        return Ok(None);
    }
    Ok(Some(listed_members(alloc, members, &plan.members)?))
}
