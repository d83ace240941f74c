//! The program under Ed25519: what verifies a signature can't make one.
#![tactic(auto)]

use std::process::ExitCode;
use up_ed25519::cached_scheme::CachedEd25519;
use up_main::program::run;

fn main(rt: HostRuntime) -> ExitCode {
    run(&rt, CachedEd25519::new(rt.alloc()))
}
