//! A BitTorrent tracker: the program.
//!
//! It reads its words and standard input, writes standard output, tells on standard error in one
//! line how a run ended other than done, and ends with the status's code.
#![tactic(auto)]

mod arguments;
mod run;
#[cfg(test)]
mod tests;

use arguments::run_args;
use ot_io::{StdSink, StdSource};
use ot_net::HostOutside;
use std::env;
use std::process::ExitCode;

fn main(rt: HostRuntime) -> ExitCode {
    let mut input = StdSource::new(rt.stdin());
    let mut out = StdSink::new(rt.stdout());
    let mut err = StdSink::new(rt.stderr());
    let mut outside = HostOutside::new(&rt);
    let args = env::args(&rt);
    ExitCode::from(run_args(
        &rt,
        rt.alloc(),
        args,
        &mut input,
        &mut out,
        &mut err,
        &mut outside,
    ))
}
