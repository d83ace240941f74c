//! The bytes of responses.
ghost use Rattle.std.specs.Prelude.{◌≡◌, ◌++◌, IfOk, string_bytes};
ghost use Rattle.up_heads.specs.Responses.{response_of, allow_text, close_text, error_body, check_row, check_response_of, refusal_status as status_by, refusal_response_of};

use crate::check::Check;
use http::StatusCode;
use std::alloc::{AllocError, Global};
use up_canon::refusal::Refusal;

/// The one method that a route takes.
#[derive(Clone, Copy, Debug, PartialEq, Eq, Drop)]
pub enum Allow {
    /// GET.
    Get,
    /// POST.
    Post,
}

/// The response with this status and body, a JSON text. `last` tells that the stream ends here, and `head` that the
/// request's method is HEAD: then the body isn't sent.
#[tactic(auto, unfolding(crate::specs::Responses::response_of))]
pub fn response_text(
    alloc: Global,
    status: StatusCode,
    allow: Option<Allow>,
    last: bool,
    head: bool,
    body: &str,
) -> Result<String, AllocError>
    ensures { IfOk result (λ text. string_bytes text ≡ response_of status allow last head body.now) }
{
    let mut out = format!(in alloc;
        "HTTP/1.1 {status}\r\nContent-Type: application/json\r\nContent-Length: {}\r\n",
        body.len()
    )?;
    push_allow(&mut out, allow)?;
    push_close(&mut out, last)?;
    out.push_str("\r\n")?;
    if !head {
        out.push_str(body)?;
    }
    Ok(out)
}

/// Appends the field `Allow`, if there is one.
fn push_allow(out: &mut String, allow: Option<Allow>) -> Result<(), AllocError>
    ensures { IfOk result (λ _. string_bytes out.new ≡ string_bytes out.old ++ allow_text allow) }
{
    match allow {
        Some(Allow::Get) => out.push_str("Allow: GET\r\n"),
        Some(Allow::Post) => out.push_str("Allow: POST\r\n"),
        None => Ok(()),
    }
}

/// Appends the field `Connection` where the stream ends.
fn push_close(out: &mut String, last: bool) -> Result<(), AllocError>
    ensures { IfOk result (λ _. string_bytes out.new ≡ string_bytes out.old ++ close_text last) }
{
    if last {
        out.push_str("Connection: close\r\n")?;
    }
    Ok(())
}

/// The body of an answer that is neither a reply nor a file.
#[tactic(auto, unfolding(crate::specs::Responses::error_body))]
fn error_text(alloc: Global, number: u32, text: &str) -> Result<String, AllocError>
    ensures { IfOk result (λ body. string_bytes body ≡ error_body number text.now) }
{
    let mut body = String::from_str(alloc, "{\"error\":")?;
    write!(body, "{number}")?;
    body.push_str(",\"text\":\"")?;
    body.push_str(text)?;
    body.push_str("\"}")?;
    Ok(body)
}

/// The response to a request that fails a check.
pub fn check_response(
    alloc: Global,
    check: Check,
    last: bool,
    head: bool,
) -> Result<String, AllocError>
    ensures { IfOk result (λ text. string_bytes text ≡ check_response_of check last head) }
{
    let body = error_text(alloc, check_number(check), check_text(check))?;
    response_text(
        alloc,
        check_status(check),
        check_allow(check),
        last,
        head,
        body.as_str(),
    )
}

/// The status of a check.
fn check_status(check: Check) -> StatusCode
    ensures { result ≡ (check_row check).status }
{
    match check {
        Check::BadRequest => StatusCode::BAD_REQUEST,
        Check::NotFound => StatusCode::NOT_FOUND,
        Check::AllowGet | Check::AllowPost => StatusCode::METHOD_NOT_ALLOWED,
        Check::LengthRequired => StatusCode::LENGTH_REQUIRED,
        Check::TooLarge => StatusCode::PAYLOAD_TOO_LARGE,
        Check::NotImplemented => StatusCode::NOT_IMPLEMENTED,
    }
}

/// The one method that a route takes, where that is what fails.
fn check_allow(check: Check) -> Option<Allow>
    ensures { result ≡ (check_row check).allow }
{
    match check {
        Check::AllowGet => Some(Allow::Get),
        Check::AllowPost => Some(Allow::Post),
        _ => None,
    }
}

/// The number of a check: a refusal's, or 0.
pub fn check_number(check: Check) -> u32
    ensures { result ≡ (check_row check).number }
{
    if matches!(check, Check::TooLarge) {
        4
    } else {
        0
    }
}

/// The words of a check.
pub fn check_text(check: Check) -> &'static str
    ensures { result.now ≡ (check_row check).text }
{
    match check {
        Check::BadRequest => "bad request",
        Check::NotFound => "not found",
        Check::AllowGet | Check::AllowPost => "method not allowed",
        Check::LengthRequired => "length required",
        Check::TooLarge => "TooLarge",
        Check::NotImplemented => "not implemented",
    }
}

/// The response to a request that is refused.
pub fn refusal_response(
    alloc: Global,
    refusal: &Refusal,
    last: bool,
    head: bool,
) -> Result<String, AllocError>
    ensures { IfOk result (λ text. string_bytes text ≡ refusal_response_of refusal.now last head) }
{
    let number = refusal.number();
    let text = refusal.text(alloc)?;
    let body = error_text(alloc, number, text.as_str())?;
    response_text(
        alloc,
        refusal_status(number),
        None,
        last,
        head,
        body.as_str(),
    )
}

/// The status of a refusal, by its number.
fn refusal_status(number: u32) -> StatusCode
    ensures { result ≡ status_by number }
{
    match number {
        5..=7 => StatusCode::BAD_REQUEST,
        11 | 12 | 17 => StatusCode::FORBIDDEN,
        10 | 29 => StatusCode::NOT_FOUND,
        13..=16 | 18 => StatusCode::CONFLICT,
        4 => StatusCode::PAYLOAD_TOO_LARGE,
        _ => StatusCode::SERVICE_UNAVAILABLE,
    }
}
