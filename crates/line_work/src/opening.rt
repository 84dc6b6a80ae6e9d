//! A member connects anew.
ghost use Rattle.std.specs.Prelude.{◌≡◌, ◌<◌, List, length, map, slice_get, slice_set, unwrap_or};
ghost use Rattle.std.specs.List.{AllZip};
ghost use Rattle.line_work.specs.FeedState.{Connection};
ghost use Rattle.line_work.specs.LineWork.{reconnected};
ghost use Rattle.line_work.specs.Standing.{IsDeskOf};

use member_gate::Desk;

/// A member's desk begins a new connection.
pub fn open_desk(desks: &mut [Desk], number: u32)
    requires { number < length desks.old }
    ensures desk { (connections : List Connection) (other : Connection) → AllZip IsDeskOf desks.old connections
        → AllZip IsDeskOf desks.new
        (slice_set connections number (reconnected (unwrap_or (slice_get connections number) other))) }
    ensures numbers { map (λ desk. desk.member) desks.new ≡ map (λ desk. desk.member) desks.old }
    ensures cursors { map (λ desk. desk.cursors) desks.new ≡ map (λ desk. desk.cursors) desks.old }
{
    desks[number as usize].open();
}
