//! Work over what is closed behind it.
ghost use Rattle.std.specs.Fn.{FnOnceReturnsAtMut};

use crate::failure::Failure;

/// Works over a desk, and then closes it as the work left it, however that ended. How the work ended is handed on.
pub fn closing<D, W: FnOnce(&mut D) -> Result<(), Failure>, C: FnOnce(D)>(
    mut desk: D,
    work: W,
    close: C,
) -> Result<(), Failure>
    requires work { W.IsAlwaysCallable work }
    requires close { C.IsAlwaysCallable close }
    ensures { (last : D) × FnOnceReturnsAtMut W.FnOnce work desk result last × C.post close last tt }
{
    let ended = work(&mut desk);
    close(desk);
    ended
}
