// Reads a scope-graph image and prints what it holds, or why it is refused (then with status 1).
// The image comes from standard input; with --sample it is a small one that is built in.
#![tactic(auto)]

use program::run::run;
use report::listing::list_image;
use std::process::ExitCode;

fn main(rt: HostRuntime) -> anyhow::Result<ExitCode> {
    run(&rt, "scopebound", list_image)
}
