//! Which requests are answered.
ghost use Rattle.std.specs.Prelude.{◌≡◌, codes};
ghost use Rattle.http.specs.Request.{head_of};
ghost use Rattle.http_header.specs.HeaderMap.{get_all};
ghost use Rattle.heap_page.specs.Admission.{asked_by, asked_of, asked_page, asked_with, has_key, has_own_host, has_own_origin, is_admitted};

use crate::terms::PageTerms;
use bytes::Bytes;
use http::{HeaderMap, HeaderName, Request, StatusCode, header};

/// What a request asks for.
#[derive(Clone, Copy)]
pub enum Asked {
    /// The page.
    Page,
    /// The answer of a line.
    Line,
    /// A dump.
    Dump,
    /// Nothing that is there, or nothing that this client may have.
    Refused(StatusCode),
}

/// Returns what a request asks for. A request by another name of the host, or from a page of another server, is refused 403 before
/// anything else of it is looked at; one without the key is refused 401.
pub(crate) fn asked_of(request: &Request<Bytes>, terms: &PageTerms) -> Asked
    ensures { result ≡ asked_of terms.now (head_of request.now) }
{
    if !is_admitted(request, terms) {
        return Asked::Refused(StatusCode::FORBIDDEN);
    }
    let uri = request.uri();
    if uri.query().is_some() {
        return Asked::Refused(StatusCode::NOT_FOUND);
    }
    asked_by(
        uri.path(),
        request.method().as_str(),
        has_key(request.headers(), terms),
    )
}

// Tells whether a request comes by a name of this server and from no other page, and asks for no other server.
fn is_admitted(request: &Request<Bytes>, terms: &PageTerms) -> bool
    ensures { result ≡ is_admitted terms.now (head_of request.now) }
{
    let headers = request.headers();
    request.uri().authority().is_none()
        && (has_own_host(headers, terms) && has_own_origin(headers, terms))
}

// Tells whether there is only one host, and it is this server.
fn has_own_host(headers: &HeaderMap, terms: &PageTerms) -> bool
    ensures { result ≡ has_own_host terms.now (get_all headers.now (codes "host")) }
{
    let mut values = headers.get_all(header::HOST).iter();
    let first = values.next();
    let second = values.next();
    match (first, second) {
        (Some(value), None) => terms.is_own_host(value.as_bytes()),
        _ => false,
    }
}

// Tells whether the request came from no page, or from a page of this server.
fn has_own_origin(headers: &HeaderMap, terms: &PageTerms) -> bool
    ensures { result ≡ has_own_origin terms.now (get_all headers.now (codes "origin")) }
{
    let mut values = headers.get_all(header::ORIGIN).iter();
    let first = values.next();
    let second = values.next();
    match (first, second) {
        (None, _) => true,
        (Some(value), None) => terms.is_own_origin(value.as_bytes()),
        _ => false,
    }
}

// Returns what is asked by this path and method, with the key or not.
fn asked_by(path: &str, method: &str, keyed: bool) -> Asked
    ensures { result ≡ asked_by path.now method.now keyed }
{
    if path == "/" {
        return asked_page(method);
    }
    if path == "/ask" {
        return asked_with(method, keyed, Asked::Line);
    }
    if path == "/dump" {
        return asked_with(method, keyed, Asked::Dump);
    }
    Asked::Refused(StatusCode::NOT_FOUND)
}

// Returns what is asked of the page by this method.
fn asked_page(method: &str) -> Asked
    ensures { result ≡ asked_page method.now }
{
    if method == "GET" || method == "HEAD" {
        return Asked::Page;
    }
    Asked::Refused(StatusCode::METHOD_NOT_ALLOWED)
}

// Returns what is asked by this method, with the key or not.
fn asked_with(method: &str, keyed: bool, asked: Asked) -> Asked
    ensures { result ≡ asked_with method.now keyed asked }
{
    if method != "POST" {
        return Asked::Refused(StatusCode::METHOD_NOT_ALLOWED);
    }
    if keyed {
        asked
    } else {
        Asked::Refused(StatusCode::UNAUTHORIZED)
    }
}

// Tells whether the request has the key.
fn has_key(headers: &HeaderMap, terms: &PageTerms) -> bool
    ensures { result ≡ has_key terms.now (get_all headers.now (codes "x-heapdbg-key")) }
{
    let mut values = headers
        .get_all(HeaderName::from_static("x-heapdbg-key"))
        .iter();
    let first = values.next();
    let second = values.next();
    match (first, second) {
        (Some(value), None) => terms.is_key(value.as_bytes()),
        _ => false,
    }
}
