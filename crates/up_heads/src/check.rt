//! Why a request is answered without a command.

/// Why a request is answered without a command.
#[derive(Clone, Copy, Debug, PartialEq, Eq, Drop)]
pub enum Check {
    /// The bytes are no request within the limits.
    BadRequest,
    /// The target has no route.
    NotFound,
    /// The route takes GET alone.
    AllowGet,
    /// The route takes POST alone.
    AllowPost,
    /// The body's length isn't stated.
    LengthRequired,
    /// The body is longer than 262,144 bytes.
    TooLarge,
    /// The body is in a transfer coding.
    NotImplemented,
}
