//! Requests as browsers and collectors write them.
use crate::{Reading, Request, What, head_of, read};
use std::test::Fail;

fn whole(what: What, head_alone: bool) -> Reading {
    Reading::Whole(Request { what, head_alone })
}

#[test]
fn each_request_is_read(rt: HostRuntime) -> Result<(), Fail> {
    let browser = b"GET / HTTP/1.1\r\nHost: 127.0.0.1:9100\r\nAccept: text/html\r\n\r\n";
    assert!(rt; read(browser) == whole(What::Page, false));
    assert!(rt; read(b"HEAD /metrics HTTP/1.1\r\n\r\n") == whole(What::Metrics, true));
    assert!(rt; read(b"GET /favicon.ico HTTP/1.1\r\n\r\n") == whole(What::Nowhere, false));
    assert!(rt; read(b"POST / HTTP/1.1\r\n\r\n") == whole(What::OtherMethod, false));
    assert!(rt; read(b"GET / HTTP/1.1\r\nHost") == Reading::More);
    assert!(rt; read(b"\x16\x03\x01") == Reading::Bad);
    Ok(())
}

#[test]
fn an_answer_has_its_length(rt: HostRuntime) -> Result<(), Fail> {
    let Ok(head) = head_of(rt.alloc(), What::OtherMethod, 12) else {
        return Err("out of memory".into());
    };
    assert!(rt; head.starts_with("HTTP/1.1 405 Method Not Allowed\r\nAllow: GET, HEAD\r\n"));
    assert!(rt; head.contains("\r\nContent-Length: 12\r\n") && head.ends_with("\r\n\r\n"));
    Ok(())
}
