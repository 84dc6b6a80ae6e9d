//! A link over a socket, without the socket.
use io_edge::{Link, Pulled};
use socket_edge::{SocketLink, bells_of};
use std::test::Fail;
use std::time::Duration;

#[test]
fn a_link_that_is_put_nothing_fails_in_time(rt: HostRuntime) -> Result<(), Fail> {
    let alloc = rt.alloc();
    let (bells, mut inboxes) = bells_of(alloc, 1)?;
    let Some(inbox) = inboxes.pop() else {
        return Err(Fail::from("there is no inbox"));
    };
    let written: Vec<u8> = Vec::new(alloc);
    let mut link = SocketLink::new(&rt, alloc, written, inbox, &bells, 0);
    link.set_logon_time(Duration::ZERO);
    let mut buffer = [0u8; 8];
    let is_late = link.pull(&mut buffer).is_err();
    let is_put = link.put(b"8=FIXT.1.1").is_ok();
    let goes_on = link.pull(&mut buffer) == Ok(Pulled::Quiet);
    drop(link);
    assert!(rt; is_late && is_put && goes_on);
    Ok(())
}
