//! What a desk tells, and numbers of messages.
use crate::DeskTold;
use crate::frames::{last_number, new_number};
use std::test::Fail;

#[test]
fn a_desk_tells_of_members_and_symbols(rt: HostRuntime) -> Result<(), Fail> {
    let mut told = DeskTold::new(rt.alloc());
    told.note(b"member=FUND up=yes since=20240102-14:30:00.000 waiting=70000 turns=2")?;
    told.note(b"member=BANK up=no waiting=0 turns=0")?;
    told.note(b"end 2")?;
    told.note(b"symbol=ABC halted=yes")?;
    let Some(waiting) = told.waiting(b"FUND") else {
        return Err("nothing waits".into());
    };
    assert!(rt; waiting.bytes == 70_000 && waiting.turns == 2);
    assert!(rt; told.is_halted(b"ABC") == Some(true) && told.is_halted(b"XYZ") == None);
    Ok(())
}

#[test]
fn the_last_number_is_read_both_ways(rt: HostRuntime) -> Result<(), Fail> {
    let two = b"8=FIXT.1.1\x019=5\x0135=0\x0134=7\x0110=001\x018=FIXT.1.1\x0135=0\x0134=8\x01";
    assert!(rt; last_number(two) == Some(8) && last_number(b"34=\x01") == None);
    assert!(rt; new_number(b" 8=FIXT.1.1|9=5|35=8|34=12|58=34=13|") == Some(12));
    assert!(rt; new_number(b" 8=FIXT.1.1|35=4|34=2|43=Y|36=9|") == None);
    Ok(())
}
