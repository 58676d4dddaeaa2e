//! Responses.

ghost use Rattle.std.specs.Prelude.{◌≡◌, IfOk, OnOk};
ghost use Rattle.std.specs.Io.KnownBytes.{Appends};
ghost use Rattle.metrics.specs.Responses.{metrics_response, refusal_response, response};

use crate::request::RequestRefusal;
use std::alloc::Global;
use std::io::{self, Write};

/// What bodies of refusals are.
const PLAIN: &str = "Content-Type: text/plain; charset=utf-8\r\n";

/// The text format of Prometheus, version 0.0.4.
const EXPOSED: &str = "Content-Type: text/plain; version=0.0.4; charset=utf-8\r\n";

/// The same as `PLAIN`, where only GET is allowed.
const GET_ALONE: &str = "Allow: GET\r\nContent-Type: text/plain; charset=utf-8\r\n";

/// Writes a response, after which the connection is closed.
fn put_response<W: Write>(out: &mut W, status: &str, fields: &str, body: &[u8]) -> io::Result<()>
    ensures { OnOk result (Appends (W.contents out.old) (W.contents out.new)
        (response status.now fields.now body.now)) }
{
    let length = body.len();
    write!(
        out,
        "HTTP/1.1 {status}\r\n{fields}Content-Length: {length}\r\nConnection: close\r\n\r\n"
    )?;
    out.write_all(body)
}

/// The response with the metrics.
pub fn metrics_response(alloc: Global, text: &[u8]) -> io::Result<Vec<u8>>
    ensures { IfOk result (λ made. made.items ≡ metrics_response text.now) }
{
    let mut made = Vec::new(alloc);
    put_response(&mut made, "200 OK", EXPOSED, text)?;
    Ok(made)
}

/// The response that refuses a request.
pub fn refusal_response(alloc: Global, refusal: RequestRefusal) -> io::Result<Vec<u8>>
    ensures { IfOk result (λ made. made.items ≡ refusal_response refusal) }
{
    let mut made = Vec::new(alloc);
    match refusal {
        RequestRefusal::Malformed => put_response(
            &mut made,
            "400 Bad Request",
            PLAIN,
            b"this is no request of HTTP/1.1\n",
        )?,
        RequestRefusal::NotFound => put_response(
            &mut made,
            "404 Not Found",
            PLAIN,
            b"there is nothing but /metrics\n",
        )?,
        RequestRefusal::MethodNotAllowed => put_response(
            &mut made,
            "405 Method Not Allowed",
            GET_ALONE,
            b"there is nothing but GET\n",
        )?,
        RequestRefusal::TooLong => put_response(
            &mut made,
            "431 Request Header Fields Too Large",
            PLAIN,
            b"the request is too long\n",
        )?,
    }
    Ok(made)
}
