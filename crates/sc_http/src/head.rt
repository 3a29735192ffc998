ghost use Rattle.std.specs.Prelude.{◌≡◌, ◌≢◌, ◌<◌, ◌≤◌, length, IfOk, IfErr, IfSome, Err};
ghost use Rattle.httparse.specs.Spans.{IsRequestWithin, IsRequestOf};
ghost use Rattle.sc_model.specs.Heads.{head_limit, line_limit};
ghost use Rattle.sc_model.specs.Messages.{EndsSo, EndsInHead};
ghost use Rattle.sc_http.specs.Ends.{ending_of};
ghost use Rattle.sc_http.specs.Lines.{IsHeadOf, IsWithinBody};

use crate::end::MessageEnd;
use crate::framing::{Framing, LengthError, has_framing, stated_framing};
use crate::line_ends::end_of_line;
use crate::lines::{asks_close, is_encoded};
use crate::target::{is_head, method_of, split_target};
use httparse::Status;
use httparse::spans::{EMPTY_HEADER_SPAN, HeaderSpan, RequestSpans, parse_request};
use sc_model::{Method, Param};
use sc_record::{List, Text};
use std::alloc::Global;
use std::str;

/// The most bytes of a head.
pub(crate) const MAX_HEAD: usize = 65_536;

/// The most header lines of a head.
const MAX_LINES: usize = 128;

/// How many header lines a head may have to be parsed in little room.
const FEW_LINES: usize = 16;

/// What a head says, as far as it is kept.
#[derive(Drop)]
pub(crate) struct Head {
    pub method: Method,
    pub path: Text,
    pub params: List<Param>,
    pub encoded: bool,
    pub lengthless: bool,
    pub close: bool,
    /// How the end of the body is known.
    pub framing: Framing,
    /// How many bytes the head has.
    pub size: usize,
}

/// The head that comes first of these bytes, or why they have none. Nothing is looked at after the first header line
/// above the most. A whole head of few lines is parsed without a look at what comes after it.
pub(crate) fn parse_head(alloc: Global, bytes: &[u8]) -> Result<Head, MessageEnd>
    ensures head { IfOk result (IsHeadOf bytes.now) }
    ensures body { IfOk result (λ head. IsWithinBody head.framing) }
    ensures ends { IfErr result (λ end. IfSome (ending_of end) (EndsSo bytes.now)) }
    ensures cut { result ≡ Err MessageEnd.Cut → EndsInHead bytes.now }
    ensures no_fault { result ≢ Err MessageEnd.ReadFault }
{
    if bytes.is_empty() {
        return Err(MessageEnd::Done);
    }
    let window = &bytes[..bytes.len().min(MAX_HEAD)];
    let mut lines = [EMPTY_HEADER_SPAN; FEW_LINES];
    match parse_request(window, &mut lines) {
        Ok(Status::Complete(spans)) => describe(alloc, window, &spans, &lines),
        _ => parse_any_head(alloc, bytes),
    }
}

/// The head that comes first of these bytes, whatever they are.
fn parse_any_head(alloc: Global, bytes: &[u8]) -> Result<Head, MessageEnd>
    requires some { 0 < length bytes.now }
    ensures head { IfOk result (IsHeadOf bytes.now) }
    ensures body { IfOk result (λ head. IsWithinBody head.framing) }
    ensures ends { IfErr result (λ end. IfSome (ending_of end) (EndsSo bytes.now)) }
    ensures cut { result ≡ Err MessageEnd.Cut → EndsInHead bytes.now }
    ensures no_fault { result ≢ Err MessageEnd.ReadFault }
{
    let window = &bytes[..bytes.len().min(MAX_HEAD)];
    let excess = end_of_line(window, MAX_LINES + 2);
    let judged = &window[..excess.unwrap_or(window.len())];
    let mut lines = [EMPTY_HEADER_SPAN; MAX_LINES + 1];
    match parse_request(judged, &mut lines) {
        Ok(Status::Complete(spans)) => describe(alloc, judged, &spans, &lines),
        Ok(Status::Partial) if excess.is_some() || bytes.len() > MAX_HEAD => {
            Err(MessageEnd::TooLarge)
        }
        Ok(Status::Partial) => Err(MessageEnd::Cut),
        Err(_) => Err(MessageEnd::BadHead),
    }
}

/// What a head says whose parts are these.
fn describe(
    alloc: Global,
    window: &[u8],
    spans: &RequestSpans,
    headers: &[HeaderSpan],
) -> Result<Head, MessageEnd>
    requires within { IsRequestWithin window.now headers.now spans.now }
    requires parsed { IsRequestOf window.now headers.now spans.now }
    requires size { length window.now ≤ head_limit }
    requires lines { spans.now.headers ≤ line_limit }
    ensures head { IfOk result (IsHeadOf window.now) }
    ensures body { IfOk result (λ head. IsWithinBody head.framing) }
    ensures ends { IfErr result (λ end. IfSome (ending_of end) (EndsSo window.now)) }
    ensures not_done { result ≢ Err MessageEnd.Done }
    ensures not_cut { result ≢ Err MessageEnd.Cut }
    ensures no_fault { result ≢ Err MessageEnd.ReadFault }
{
    let lines = &headers[..spans.headers];
    let framing = match stated_framing(window, lines) {
        Ok(framing) => framing,
        Err(LengthError::Malformed) => return Err(MessageEnd::BadHead),
        Err(LengthError::TooLarge) => return Err(MessageEnd::TooLarge),
    };
    let Ok(target) = str::from_utf8(spans.path.of(window)) else {
        return Err(MessageEnd::BadHead);
    };
    let Ok((path, params)) = split_target(alloc, target) else {
        return Err(MessageEnd::Memory);
    };
    let method = spans.method.of(window);
    Ok(Head {
        method: method_of(method),
        path,
        params,
        encoded: is_encoded(window, lines),
        lengthless: !has_framing(window, lines),
        close: spans.version == 0 || is_head(method) || asks_close(window, lines),
        framing,
        size: spans.len,
    })
}
