//! Requests (RFC 9112 section 3) and what they ask for.

use metrics::{Asked, RequestRefusal, metrics_response, read_request, refusal_response};

const ROWS: [(&str, Asked); 14] = [
    ("", Asked::Unfinished),
    ("GET", Asked::Unfinished),
    ("GET /metrics HTTP/1.1\r\n", Asked::Unfinished),
    ("GET /metrics HTTP/1.1\r\nHost: a\r\n\r\n", Asked::Metrics),
    ("GET /metrics HTTP/1.0\r\n\r\n", Asked::Metrics),
    (
        "GET /metrics HTTP/1.1\r\nHost: a\r\n\r\nGET ",
        Asked::Metrics,
    ),
    (
        "GET / HTTP/1.1\r\nHost: a\r\n\r\n",
        Asked::Refused(RequestRefusal::NotFound),
    ),
    (
        "GET /metrics/ HTTP/1.1\r\nHost: a\r\n\r\n",
        Asked::Refused(RequestRefusal::NotFound),
    ),
    (
        "POST /other HTTP/1.1\r\nHost: a\r\n\r\n",
        Asked::Refused(RequestRefusal::NotFound),
    ),
    (
        "POST /metrics HTTP/1.1\r\nHost: a\r\n\r\n",
        Asked::Refused(RequestRefusal::MethodNotAllowed),
    ),
    (
        "get /metrics HTTP/1.1\r\nHost: a\r\n\r\n",
        Asked::Refused(RequestRefusal::MethodNotAllowed),
    ),
    (
        "GET /metrics HTTP/2.0\r\n\r\n",
        Asked::Refused(RequestRefusal::Malformed),
    ),
    (
        "GET  /metrics HTTP/1.1\r\n\r\n",
        Asked::Refused(RequestRefusal::Malformed),
    ),
    ("\u{0}", Asked::Refused(RequestRefusal::Malformed)),
];

#[test]
fn requests(rt: HostRuntime) {
    for (request, wanted) in &ROWS {
        let is_so = read_request(request.as_bytes()) == *wanted;
        assert!(rt; is_so, "{request}");
    }
}

#[test]
fn long_requests(rt: HostRuntime) {
    let mut request = String::new(rt.alloc());
    request
        .push_str("GET /metrics HTTP/1.1\r\nA: ")
        .expect(&rt, "memory");
    for _ in request.len()..4_095 {
        request.push('a').expect(&rt, "memory");
    }
    let is_so = read_request(request.as_bytes()) == Asked::Unfinished;
    assert!(rt; is_so, "4,095 bytes");
    request.push('a').expect(&rt, "memory");
    let is_so = read_request(request.as_bytes()) == Asked::Refused(RequestRefusal::TooLong);
    assert!(rt; is_so, "4,096 bytes");
}

#[test]
fn responses(rt: HostRuntime) {
    let response = metrics_response(rt.alloc(), b"a 1\n").expect(&rt, "memory");
    let wanted = "HTTP/1.1 200 OK\r\n\
                  Content-Type: text/plain; version=0.0.4; charset=utf-8\r\n\
                  Content-Length: 4\r\n\
                  Connection: close\r\n\
                  \r\n\
                  a 1\n";
    let is_so = response.as_slice() == wanted.as_bytes();
    assert!(rt; is_so, "metrics");
    let response = refusal_response(rt.alloc(), RequestRefusal::MethodNotAllowed).expect(
        &rt, "memory",
    );
    let wanted = "HTTP/1.1 405 Method Not Allowed\r\n\
                  Allow: GET\r\n\
                  Content-Type: text/plain; charset=utf-8\r\n\
                  Content-Length: 25\r\n\
                  Connection: close\r\n\
                  \r\n\
                  there is nothing but GET\n";
    let is_so = response.as_slice() == wanted.as_bytes();
    assert!(rt; is_so, "405");
}
