//! The answers to requests.
ghost use Rattle.std.specs.Prelude.{◌≡◌, [], OnOk, OnErr, Some, length};
ghost use Rattle.session_text.specs.Replies.{line_answer_text};
ghost use Rattle.question_text.specs.Answers.{IsAnswerOfLine};
ghost use Rattle.question_grammar.specs.Bookmarks.{no_bookmarks};
ghost use Rattle.question_grammar.specs.Questions.{at_of_word};
ghost use Rattle.http_server.specs.Response.{IsBlank, IsResponse};
ghost use Rattle.heap_page.specs.PageAnswers.{IsAnswerResponse, IsDumpResponse, IsImageResponse, IsLineResponse, IsRefusalResponse, IsResponseTo, dump_status, fixed_fields, page_fields, text_fields, typed_fields};
ghost use Rattle.question_words.specs.Moments.{image_at};

use crate::admission::{Asked, asked_of};
use crate::page_text::{PAGE, POLICY};
use crate::terms::PageTerms;
use bytes::Bytes;
use heap_class::Refusal;
use heap_lock::{Heap, Kept, Machine, Shared, Witness};
use http::{HeaderName, HeaderValue, Request, StatusCode};
use http_server::{Response, Service};
use question_grammar::{Bookmarks, at_of};
use question_text::{answer_line, dump_at};
use question_words::At;
use session_text::{LineAnswer, printed};
use std::alloc::{AllocError, Global};
use std::marker::Model;
use std::sync::Wait;

/// What answers the requests for the page of a shared heap. It has no seat, so it can't act, and opens no pin. Contracts see the
/// terms of the page, and the calls on the heap that it has seen.
#[derive(Drop)]
pub struct PageService<'a, L: Heap, R: Wait> {
    shared: &'a Shared<L>,
    rt: &'a R,
    alloc: Global,
    terms: &'a PageTerms,
    witness: Witness<L>,
}

impl<'a, L: Heap, R: Wait> Model for PageService<'a, L, R> {
    ghost use Rattle.heap_page.specs.PageAnswers.{Watched};

    ghost Value = { Watched };

    ghost view = { λ s. record { terms = s.terms.now; seen = s.witness } };
}

// Adds the fields of each response.
fn add_fixed(response: &mut Response) -> Result<(), AllocError>
    requires { IsBlank response.old }
    ensures { OnOk result (IsResponse 200 fixed_fields [] response.new) }
{
    response.add_header(
        HeaderName::from_static("cache-control"),
        HeaderValue::from_static("no-store"),
    )?;
    response.add_header(
        HeaderName::from_static("x-content-type-options"),
        HeaderValue::from_static("nosniff"),
    )?;
    response.add_header(
        HeaderName::from_static("referrer-policy"),
        HeaderValue::from_static("no-referrer"),
    )?;
    response.add_header(
        HeaderName::from_static("x-frame-options"),
        HeaderValue::from_static("DENY"),
    )?;
    response.add_header(
        HeaderName::from_static("cross-origin-resource-policy"),
        HeaderValue::from_static("same-origin"),
    )?;
    response.add_header(
        HeaderName::from_static("cross-origin-opener-policy"),
        HeaderValue::from_static("same-origin"),
    )
}

// Fills a response with the page.
fn fill_page(response: &mut Response) -> Result<(), AllocError>
    requires { IsResponse 200 fixed_fields [] response.old }
    ensures { OnOk result (IsResponse 200 page_fields PAGE.now response.new) }
{
    response.add_header(
        HeaderName::from_static("content-type"),
        HeaderValue::from_static("text/html; charset=utf-8"),
    )?;
    response.add_header(
        HeaderName::from_static("content-security-policy"),
        HeaderValue::from_static(POLICY),
    )?;
    response.body.push(Bytes::from_static(PAGE))
}

// Fills a response with the dump of a state of a machine, or with the reason why there is none.
fn dump_response(
    alloc: Global,
    machine: &Machine,
    at: At,
    time: u64,
    response: &mut Response,
) -> Result<(), AllocError>
    requires { IsResponse 200 fixed_fields [] response.old }
    ensures { OnOk result
        (IsImageResponse machine.now.ids time (image_at at machine.now) response.new) }
{
    match dump_at(alloc, machine, at, time) {
        Ok(text) => {
            let kind = HeaderValue::from_static("application/octet-stream");
            fill(response, kind, text)
        }
        Err(refusal) => fill_refusal(response, refusal),
    }
}

// Fills a response with a body of this type.
fn fill(response: &mut Response, kind: HeaderValue, text: Vec<u8>) -> Result<(), AllocError>
    requires { IsResponse 200 fixed_fields [] response.old }
    ensures { OnOk result (IsResponse 200 (typed_fields kind.bytes) text.items response.new) }
{
    response.add_header(HeaderName::from_static("content-type"), kind)?;
    let Ok(bytes) = Bytes::from_vec(text) else {
        return Err(AllocError);
    };
    response.body.push(bytes)
}

// Fills a response with the name of a refusal.
fn fill_refusal(response: &mut Response, refusal: Refusal) -> Result<(), AllocError>
    requires { IsResponse 200 fixed_fields [] response.old }
    ensures { OnOk result (IsRefusalResponse refusal response.new) }
{
    response.status = dump_status(refusal);
    response.add_header(
        HeaderName::from_static("content-type"),
        HeaderValue::from_static("text/plain; charset=us-ascii"),
    )?;
    response
        .body
        .push(Bytes::from_static(refusal.name().as_bytes()))
}

// Returns the status of a dump that is refused.
fn dump_status(refusal: Refusal) -> StatusCode
    ensures { result ≡ dump_status refusal }
{
    match refusal {
        Refusal::NoMemory => StatusCode::SERVICE_UNAVAILABLE,
        _ => StatusCode::CONFLICT,
    }
}

// Fills a response with the answer of a line about the heap under its lock.
fn answer_response<L: Heap>(
    alloc: Global,
    kept: &Kept<L>,
    line: &[u8],
    response: &mut Response,
) -> Result<(), AllocError>
    requires { IsResponse 200 fixed_fields [] response.old }
    ensures { OnOk result
        (IsAnswerResponse line.now kept.now.machine kept.now.chronicle response.new) }
{
    let answer = answer_held(alloc, kept, line);
    fill_printed(alloc, answer, response)
}

// Returns the answer of a line about the heap under its lock.
fn answer_held<L: Heap>(alloc: Global, kept: &Kept<L>, line: &[u8]) -> LineAnswer
    ensures { IsAnswerOfLine line.now kept.now.machine (Some (length kept.now.chronicle))
        no_bookmarks (line_answer_text result) }
{
    let acts = kept.chronicle().len() as u64;
    let bookmarks = Bookmarks::new(alloc);
    answer_line(alloc, kept.machine(), Some(acts), &bookmarks, line)
}

// Fills a response with what is printed of an answer.
fn fill_printed(
    alloc: Global,
    answer: LineAnswer,
    response: &mut Response,
) -> Result<(), AllocError>
    requires { IsResponse 200 fixed_fields [] response.old }
    ensures { OnOk result (IsResponse 200 text_fields (line_answer_text answer) response.new) }
{
    let kind = HeaderValue::from_static("text/plain; charset=us-ascii");
    fill(response, kind, printed(alloc, answer)?)
}

impl<'a, L: Heap, R: Wait> PageService<'a, L, R> {
    /// Creates what answers the requests for the page of a heap under these terms.
    pub fn new(
        shared: &'a Shared<L>,
        rt: &'a R,
        alloc: Global,
        terms: &'a PageTerms,
        witness: Witness<L>,
    ) -> PageService<'a, L, R>
        ensures { result ≡ record { terms = terms.now; seen = witness } }
    {
        PageService {
            shared,
            rt,
            alloc,
            terms,
            witness,
        }
    }

    // Fills a response with the answer of a line about the heap, at one moment under the lock.
    fn fill_answer(&mut self, line: &[u8], response: &mut Response) -> Result<(), AllocError>
        requires { IsResponse 200 fixed_fields [] response.old }
        ensures answer { OnOk result
            (IsLineResponse L.config self.old.seen line.now response.new self.new.seen) }
        ensures terms { self.new.terms ≡ self.old.terms }
        ensures err { OnErr result (self.new ≡ self.old) }
    {
        let mut kept = self.shared.lock(self.rt);
        answer_response(self.alloc, &kept, line, response)?;
        kept.show(&mut self.witness);
        Ok(())
    }

    // Fills a response with the dump of a state, at one moment under the lock, or with the reason why there is none.
    fn fill_dump(&mut self, at: At, response: &mut Response) -> Result<(), AllocError>
        requires { IsResponse 200 fixed_fields [] response.old }
        ensures dump { OnOk result
            (IsDumpResponse L.config self.old.seen self.old.terms.time (Some at) response.new
            self.new.seen) }
        ensures terms { self.new.terms ≡ self.old.terms }
        ensures err { OnErr result (self.new ≡ self.old) }
    {
        let mut kept = self.shared.lock(self.rt);
        dump_response(self.alloc, kept.machine(), at, self.terms.time(), response)?;
        kept.show(&mut self.witness);
        Ok(())
    }

    // Fills a response with the dump of the state that a word names.
    fn fill_dump_of(&mut self, word: &[u8], response: &mut Response) -> Result<(), AllocError>
        requires { IsResponse 200 fixed_fields [] response.old }
        ensures dump { OnOk result
            (IsDumpResponse L.config self.old.seen self.old.terms.time
            (at_of_word no_bookmarks word.now) response.new self.new.seen) }
        ensures terms { self.new.terms ≡ self.old.terms }
        ensures err { OnErr result (self.new ≡ self.old) }
    {
        let bookmarks = Bookmarks::new(self.alloc);
        match at_of(&bookmarks, word) {
            Some(at) => self.fill_dump(at, response),
            None => {
                response.status = StatusCode::BAD_REQUEST;
                Ok(())
            }
        }
    }

    // Fills a response to what is asked, with this body.
    fn respond(
        &mut self,
        asked: Asked,
        body: &[u8],
        response: &mut Response,
    ) -> Result<(), AllocError>
        requires { IsResponse 200 fixed_fields [] response.old }
        ensures response { OnOk result
            (IsResponseTo L.config self.old asked body.now response.new self.new.seen) }
        ensures terms { self.new.terms ≡ self.old.terms }
        ensures err { OnErr result (self.new ≡ self.old) }
    {
        match asked {
            Asked::Page => fill_page(response),
            Asked::Line => self.fill_answer(body, response),
            Asked::Dump => self.fill_dump_of(body, response),
            Asked::Refused(status) => {
                response.status = status;
                Ok(())
            }
        }
    }
}

impl<L: Heap, R: Wait> Service for PageService<'_, L, R> {
    ghost use Rattle.heap_page.specs.PageAnswers.{IsResponseOf};

    ghost answers = { λ old request response new. IsResponseOf L.config old request response new };

    fn call(
        &mut self,
        request: &Request<Bytes>,
        response: &mut Response,
    ) -> Result<(), AllocError> {
        add_fixed(response)?;
        let asked = asked_of(request, self.terms);
        self.respond(asked, request.body().as_slice(), response)
    }
}
