// Runs a script of calls on a new workbook, one call a line, and prints each answer.
// The script comes from standard input; with --sample it is a small one that is built in.
// Working out is in cycles; with --stack it is in stack.
#![tactic(auto)]

use crate::sample::SAMPLE;
use analysis::analyze::WORK;
use anyhow::anyhow;
use measures::cycles::Cycles;
use measures::stack::Stack;
use model::cost::Cost;
use model::trail::{Line, SECTION};
use rules::limits::SCOPES;
use script::answer_text::answer_lines;
use script::cost_text::CostText;
use script::read_call::read_call;
use session::call::Call;
use session::play::play;
use std::alloc::Global;
use std::env;
use std::io::Read;

mod sample;

// The most that is read of a script, in bytes.
const MOST_READ: u64 = 1_000_000;

// Two switches of which neither excludes the other: an enum would be no plainer.
#[derive(Clone, Copy, Default)]
struct Options {
    sample: bool,
    stack: bool,
}

fn read_options(rt: &HostRuntime) -> anyhow::Result<Options> {
    let mut options = Options::default();
    for word in env::args(rt)?.skip(1) {
        match word.as_str() {
            "--sample" => options.sample = true,
            "--stack" => options.stack = true,
            _ => return Err(anyhow!("usage: console [--sample] [--stack] < SCRIPT")),
        }
    }
    Ok(options)
}

fn input(rt: &HostRuntime) -> anyhow::Result<String> {
    let mut text = String::new(rt.alloc());
    rt.stdin().take(MOST_READ + 1).read_to_string(&mut text)?;
    if text.len() as u64 > MOST_READ {
        return Err(anyhow!("the script is longer than 1,000,000 bytes"));
    }
    Ok(text)
}

// The calls of a script, where each of its lines is one, a comment or blank.
fn read_script(heap: Global, text: &str) -> anyhow::Result<Vec<Call>> {
    let mut calls = Vec::new(heap);
    for (above, line) in text.lines().enumerate() {
        let line = line.trim();
        if line.is_empty() || line.starts_with('#') {
            continue;
        }
        let Some(call) = read_call(heap, line)? else {
            let number = above.saturating_add(1);
            let fault = format!(in heap; "line {number} is no call; nothing was run")?;
            return Err(anyhow!(fault));
        };
        calls.push(call)?;
    }
    Ok(calls)
}

// Runs the calls under one measure, in tables that are enough for sixteen scopes, and prints the answers.
fn answer<C: Cost + Clone + CostText>(rt: &HostRuntime, calls: &[Call]) -> anyhow::Result<()> {
    let heap = rt.alloc();
    let mut work = vec![in heap; C::nothing(); WORK]?;
    let mut trail = vec![in heap; Line::default(); SCOPES * SECTION]?;
    let answers = play(heap, calls, work.as_mut_slice(), trail.as_mut_slice())?;
    let text = answer_lines(heap, answers.as_slice())?;
    rt.print(text.as_str())?;
    Ok(())
}

fn main(rt: HostRuntime) -> anyhow::Result<()> {
    let options = read_options(&rt)?;
    let text = if options.sample {
        String::from_str(rt.alloc(), SAMPLE)?
    } else {
        input(&rt)?
    };
    let calls = read_script(rt.alloc(), text.as_str())?;
    if options.stack {
        answer::<Stack>(&rt, calls.as_slice())
    } else {
        answer::<Cycles>(&rt, calls.as_slice())
    }
}
