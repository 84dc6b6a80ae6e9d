//! Lists of what members are told.
ghost use Rattle.std.specs.Prelude.{◌≡◌, [], ◌∷◌, IfOk};

use eager_meaning::Notice;
use std::alloc::{AllocError, Global};
use venue_words::Kind;

/// One notice.
pub fn one_notice(alloc: Global, member: u32, kind: Kind) -> Result<Vec<Notice>, AllocError>
    ensures { IfOk result (λ notices. notices.items ≡ record { member = member; kind = kind } ∷ []) }
{
    let mut notices = Vec::new(alloc);
    notices.push(Notice { member, kind })?;
    Ok(notices)
}
