//! Frames are put to a link.
ghost use Rattle.std.specs.Prelude.{◌≡◌, ◌≤◌};
ghost use Rattle.venue_words.specs.Causes.{HasCause};
ghost use Rattle.io_edge.specs.Links.{PutsPiece};
ghost use Rattle.link_work.specs.Turns.{joined};

use io_edge::{Failed, Link};
use venue_words::Bytes;

/// Puts frames one after the other. After a failure a prefix of their bytes was put.
pub fn put_all<K: Link>(link: &mut K, frames: &[Bytes]) -> Result<(), Failed>
    ensures bytes { PutsPiece (K.told link.old) (K.told link.new) result (joined frames.now) }
    ensures end { K.ends link.new ≡ K.ends link.old }
    ensures cause { HasCause (K.faults link.old) (K.faults link.new) result }
{
    for frame in frames {
        match link.put(frame.as_slice()) {
            Ok(()) => {}
            Err(failed) => return Err(failed),
        }
    }
    Ok(())
}
