//! What answers requests here.
use std::alloc::{AllocError, Global};
use up_canon::refusal::Refusal;
use up_heads::responses::{check_response, refusal_response};
use up_http::asked::{Next, What};
use up_http::respond::Respond;

/// Has no file and no vehicle, and counts what it is asked for.
#[derive(Clone, Copy, Debug)]
pub(crate) struct Empty;

impl Respond<u32> for Empty {
    ghost use Rattle.std.specs.Prelude.{◌≡◌};

    ghost gives = { λ _ _ _ text _. text ≡ text };

    fn respond(&self, alloc: Global, state: &mut u32, next: &Next) -> Result<Vec<u8>, AllocError> {
        let text = answer(alloc, next)?;
        *state = state.saturating_add(1);
        Ok(text.into_bytes())
    }
}

fn answer(alloc: Global, next: &Next) -> Result<String, AllocError> {
    match &next.what {
        What::Call(_) => refusal_response(alloc, &Refusal::UnknownFile, next.last, next.head),
        What::Fixed(check) => check_response(alloc, *check, next.last, next.head),
    }
}
