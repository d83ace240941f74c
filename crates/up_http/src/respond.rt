//! What answers a request.
ghost use Rattle.std.specs.Prelude.{ℕ, List, IfOk, IsTrue, OnErr};
ghost use Rattle.up_http.specs.Requests.{asks_running};
ghost use Rattle.up_http.specs.declared.asked.Next.{Next};

use crate::asked::Next;
use std::alloc::{AllocError, Global};

/// What answers requests, one after another, over a state that each may change.
pub trait Respond<S> {
    /// In a state a request may have this answer, which leaves that state.
    ghost gives: { Self → S → Next → List ℕ → S → Type 0 };

    /// The answer to a request. An `Err` leaves the state as some answer leaves it, which couldn't be told for want of
    /// memory.
    fn respond(&self, alloc: Global, state: &mut S, next: &Next) -> Result<Vec<u8>, AllocError>
        requires { IsTrue (asks_running next.now.what) }
        ensures ok { IfOk result (λ text. gives self.now state.old next.now text.items state.new) }
        ensures err { OnErr result ((text : List ℕ) × gives self.now state.old next.now text state.new) };
}
