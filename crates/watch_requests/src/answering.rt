//! The heads of answers.
use crate::reading::What;
use std::alloc::Global;
use venue_words::NoMemory;

/// Says that the page loads nothing, and that nobody else frames it.
const POLICY: &str =
    "default-src 'none'; style-src 'unsafe-inline'; script-src 'unsafe-inline'; connect-src 'self'; frame-ancestors 'none'";

impl What {
    fn status(self) -> &'static str {
        match self {
            What::Page | What::Metrics => "200 OK",
            What::Nowhere => "404 Not Found",
            What::OtherMethod => "405 Method Not Allowed\r\nAllow: GET, HEAD",
        }
    }

    fn media_type(self) -> &'static str {
        match self {
            What::Page => "text/html; charset=utf-8",
            What::Metrics => "text/plain; version=0.0.4; charset=utf-8",
            What::Nowhere | What::OtherMethod => "text/plain; charset=utf-8",
        }
    }
}

/// The head of an answer with a body of so many bytes. The connection ends after it.
pub fn head_of(alloc: Global, what: What, length: usize) -> Result<String, NoMemory> {
    Ok(format!(in alloc;
        "HTTP/1.1 {}\r\nContent-Type: {}\r\nContent-Length: {length}\r\nConnection: close\r\nCache-Control: no-store\r\nX-Content-Type-Options: nosniff\r\nContent-Security-Policy: {POLICY}\r\n\r\n",
        what.status(),
        what.media_type()
    )?)
}

/// The answer to bytes that are no request.
pub fn bad_head(alloc: Global) -> Result<String, NoMemory> {
    Ok(String::from_str(
        alloc,
        "HTTP/1.1 400 Bad Request\r\nContent-Length: 0\r\nConnection: close\r\n\r\n",
    )?)
}
