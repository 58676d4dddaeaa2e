//! What a request asks for (RFC 9112 sections 2 to 5).

ghost use Rattle.std.specs.Prelude.{◌≡◌, ◌≤◌, ◌<◌, ℕ, List, length};
ghost use Rattle.httparse.specs.Grammar.{HasNoRequest, NeverHasRequest};
ghost use Rattle.httparse.specs.Grammar.{ReadsRequest, RequestHead};
ghost use Rattle.metrics.specs.Requests.{asked_by, asked_for};

use httparse::spans::{EMPTY_HEADER_SPAN, parse_request};
use httparse::{Error, Status};

/// The most bytes of a request, up to the end of its head.
pub const MOST_REQUEST: usize = 4_096;

/// Where the metrics stand, and how they are asked for.
const TARGET: &[u8] = b"/metrics";

const METHOD: &[u8] = b"GET";

/// The most fields of a request's head.
const MOST_FIELDS: usize = 64;

/// Why a request gets no metrics.
#[derive(Clone, Copy, PartialEq, Eq, Debug)]
pub enum RequestRefusal {
    /// It is no request of HTTP/1.0 or HTTP/1.1.
    Malformed,
    /// It asks for something else.
    NotFound,
    /// It doesn't ask by GET.
    MethodNotAllowed,
    /// Its head is too long, or has too many fields.
    TooLong,
}

/// What a request asks for.
#[derive(Clone, Copy, PartialEq, Eq, Debug)]
pub enum Asked {
    /// More of it is to come.
    Unfinished,
    Metrics,
    Refused(RequestRefusal),
}

/// What a method and a target ask for.
fn asked_by(method: &[u8], target: &[u8]) -> Asked
    ensures { result ≡ asked_by method.now target.now }
{
    if target != TARGET {
        Asked::Refused(RequestRefusal::NotFound)
    } else if method != METHOD {
        Asked::Refused(RequestRefusal::MethodNotAllowed)
    } else {
        Asked::Metrics
    }
}

/// What the bytes of a request that came so far ask for.
pub fn read_request(request: &[u8]) -> Asked
    ensures asked { (head : RequestHead) (rest : List ℕ) → ReadsRequest request.now head rest
        → length head.fields ≤ 64 → result ≡ asked_for head }
    ensures unfinished { result ≡ Asked.Unfinished → HasNoRequest request.now }
    ensures room { result ≡ Asked.Unfinished → length request.now < 4096 }
    ensures malformed { result ≡ Asked.Refused RequestRefusal.Malformed
        → NeverHasRequest request.now }
{
    let mut fields = [EMPTY_HEADER_SPAN; MOST_FIELDS];
    match parse_request(request, &mut fields) {
        Ok(Status::Complete(head)) => asked_by(head.method.of(request), head.path.of(request)),
        Ok(Status::Partial) => {
            if request.len() < MOST_REQUEST {
                Asked::Unfinished
            } else {
                Asked::Refused(RequestRefusal::TooLong)
            }
        }
        Err(Error::TooManyHeaders) => Asked::Refused(RequestRefusal::TooLong),
        Err(_) => Asked::Refused(RequestRefusal::Malformed),
    }
}
