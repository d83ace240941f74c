//! The program under HMAC-SHA-256: the same secret signs and verifies.
#![tactic(auto)]

use std::process::ExitCode;
use up_main::program::run;
use up_sign::hmac_sha256::HmacSha256;

fn main(rt: HostRuntime) -> ExitCode {
    run(&rt, HmacSha256)
}
