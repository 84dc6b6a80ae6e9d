//! The bodies of copies.
ghost use Rattle.std.specs.Prelude.{◌≡◌, ◌++◌, OnOk};
ghost use Rattle.drop_copy.specs.Copies.{copy_body};

use crate::tags::COPIED_MEMBER;
use exec_reports::push_body;
use fix_write::push_field;
use session_core::Body;
use venue_words::{NoMemory, Report};

/// The body of a copy of a report of a symbol and a member, by their names.
#[derive(Clone, Copy)]
pub struct CopyBody<'a> {
    pub report: &'a Report,
    pub symbol: &'a [u8],
    pub member: &'a [u8],
}

/// Appends the body of a copy of a report: the report's, of a symbol and a member by their names, and behind it
/// COPIED_MEMBER(9703) with the member's name. A refusal leaves a part of it.
#[tactic(auto, unfolding(crate::specs::Copies::copy_body))]
pub fn push_copy_body(
    out: &mut Vec<u8>,
    report: &Report,
    symbol: &[u8],
    member: &[u8],
) -> Result<(), NoMemory>
    ensures { OnOk result (out.new.items ≡ out.old.items ++ copy_body report.now symbol.now member.now) }
{
    push_body(out, report, symbol, member)?;
    push_field(out, COPIED_MEMBER, member)
}

impl<'a> Body for CopyBody<'a> {
    ghost bytes = { λ b. copy_body b.report.now b.symbol.now b.member.now };

    fn push_to(&self, out: &mut Vec<u8>) -> Result<(), NoMemory> {
        push_copy_body(out, self.report, self.symbol, self.member)
    }
}
