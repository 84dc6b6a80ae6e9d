//! A request, read of the bytes of a connection.
ghost use Rattle.std.specs.Prelude.{◌≡◌};
ghost use Rattle.watch_requests.specs.Asking.{request_of, IsReadOf, ReadsEach};
ghost use Rattle.watch_requests.specs.declared.reading.TheConstants.{MAX_FIELDS};

use httparse::Status;
use httparse::spans::{EMPTY_HEADER_SPAN, parse_request};

/// The most header fields of a request.
pub const MAX_FIELDS: usize = 64;

/// What is asked for.
#[derive(Clone, Copy, Debug, PartialEq, Eq)]
pub enum What {
    /// `/`
    Page,
    /// `/metrics`
    Metrics,
    /// There is nothing at this place.
    Nowhere,
    /// The method is neither GET nor HEAD.
    OtherMethod,
}

/// A request.
#[derive(Clone, Copy, Debug, PartialEq, Eq)]
pub struct Request {
    pub what: What,
    /// The answer's head is asked for, and not its body.
    pub head_alone: bool,
}

/// What bytes of a connection come to.
#[derive(Clone, Copy, Debug, PartialEq, Eq)]
pub enum Reading {
    Whole(Request),
    /// No whole request is there yet.
    More,
    /// They are no request, or one of too many header fields.
    Bad,
}

/// What a method and a target ask for.
#[tactic(auto, unfolding(crate::specs::Asking::request_of))]
fn request_of(method: &[u8], target: &[u8]) -> Request
    ensures { result ≡ request_of method.now target.now }
{
    let head_alone = method == b"HEAD".as_slice();
    let what = if method == b"GET".as_slice() || head_alone {
        if target == b"/".as_slice() {
            What::Page
        } else if target == b"/metrics".as_slice() {
            What::Metrics
        } else {
            What::Nowhere
        }
    } else {
        What::OtherMethod
    };
    Request { what, head_alone }
}

/// Reads the request at the front of these bytes.
pub fn read(bytes: &[u8]) -> Reading
    ensures read { IsReadOf bytes.now result }
    ensures each { ReadsEach MAX_FIELDS bytes.now result }
{
    let mut fields = [EMPTY_HEADER_SPAN; MAX_FIELDS];
    match parse_request(bytes, &mut fields) {
        Ok(Status::Complete(head)) => {
            Reading::Whole(request_of(head.method.of(bytes), head.path.of(bytes)))
        }
        Ok(Status::Partial) => Reading::More,
        Err(_) => Reading::Bad,
    }
}
