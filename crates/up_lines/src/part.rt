//! The bytes of a piece.
ghost use Rattle.std.specs.Prelude.{◌≡◌, ◌<◌, ◌≤◌, [], ◌∷◌, ℕ, List, IfErr, OnOk, length, MatchOption};
ghost use Rattle.up_lines.specs.Lines.{most_lines, newline, piece_bytes};
ghost use Rattle.up_lines.specs.Progress.{Grows, IsPart, Refuses};

use crate::cut::cut_line;
use crate::fault::ScriptCause;
use crate::limits::{MOST_LINE_BYTES, MOST_LINES, PIECE_BYTES};
use crate::progress::Progress;

/// What stands behind a newline, where no line is begun and another may be: an empty line.
pub(crate) fn behind_empty<'a>(progress: &Progress, piece: &'a [u8]) -> Option<&'a [u8]>
    ensures { MatchOption result
        (progress.now.line.items ≡ [] → progress.now.counted < most_lines → (more : List ℕ) → piece.now ≡ newline ∷ more → ⊥)
        (λ behind. (progress.now.line.items ≡ []) × (progress.now.counted < most_lines) × (piece.now ≡ newline ∷ behind.now)) }
{
    if !progress.line.is_empty() || progress.counted == MOST_LINES {
        return None;
    }
    match cut_line(piece) {
        Some((line, behind)) => { if line.is_empty() { Some(behind) } else { None } }
        None => None,
    }
}

/// Puts a piece behind the line that is begun, all of it or nothing. No empty line is at its front.
pub(crate) fn take_bytes(progress: &mut Progress, piece: &[u8]) -> Result<(), ScriptCause>
    requires few { length piece.now ≤ piece_bytes }
    requires begun { progress.old.line.items ≡ [] → progress.old.counted < most_lines → (more : List ℕ)
        → piece.now ≡ newline ∷ more → ⊥ }
    ensures ok { OnOk result (Grows piece.now progress.old progress.new) }
    ensures err { IfErr result (λ cause. (progress.new.answered ≡ progress.old.answered)
        × Refuses cause piece.now progress.old) }
{
    if piece.is_empty() {
        return Ok(());
    }
    if progress.counted == MOST_LINES {
        return Err(ScriptCause::TooLong);
    }
    if progress.line.len() + part_of(piece) > MOST_LINE_BYTES {
        return Err(ScriptCause::TooLong);
    }
    // The first byte of all makes room for any line and a piece, so memory isn't refused for a line behind others.
    let more = MOST_LINE_BYTES + PIECE_BYTES - progress.line.len();
    if progress.line.reserve_exact(more).is_err() {
        return Err(ScriptCause::Memory);
    }
    progress.line.extend_from_slice(piece).unwrap();
    Ok(())
}

/// How many bytes stand before the first newline.
fn part_of(piece: &[u8]) -> usize
    ensures { (p : IsPart piece.now) × (result ≡ length p.part) }
{
    match cut_line(piece) {
        Some((line, _)) => line.len(),
        None => piece.len(),
    }
}
