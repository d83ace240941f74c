//! The methods that the routes know.
ghost use Rattle.std.specs.Prelude.{◌≡◌};
ghost use Rattle.up_heads.specs.Methods.{is_head_verb, verb_of as verb};

use http::Method;

/// A request's method. Methods are compared exactly, in capital letters (RFC 9110, section 9.1).
#[derive(Clone, Copy, Debug, PartialEq, Eq, Drop)]
pub enum Verb {
    /// GET.
    Get,
    /// POST.
    Post,
    /// HEAD.
    Head,
    /// Any other method.
    Other,
}

impl Verb {
    /// Whether it is HEAD, whose answer has no body (RFC 9110, section 9.3.2).
    pub fn is_head(self) -> bool
        ensures { result ≡ is_head_verb self }
    {
        matches!(self, Verb::Head)
    }
}

/// The method of this name.
#[tactic(auto, unfolding(crate::specs::Methods::verb_of))]
pub(crate) fn verb_of(name: &[u8]) -> Verb
    ensures { result ≡ verb name.now }
{
    if name == Method::GET.as_str().as_bytes() {
        Verb::Get
    } else if name == Method::POST.as_str().as_bytes() {
        Verb::Post
    } else if name == Method::HEAD.as_str().as_bytes() {
        Verb::Head
    } else {
        Verb::Other
    }
}
