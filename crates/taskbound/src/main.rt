// Reads a scope-graph image and prints its bounds, or why it is refused (then with status 1).
// The image comes from standard input; with --sample it is a small one that is built in.
#![tactic(auto)]

use bound_report::text::report_image;
use program::run::run;
use std::process::ExitCode;

fn main(rt: HostRuntime) -> anyhow::Result<ExitCode> {
    run(&rt, "taskbound", report_image)
}
