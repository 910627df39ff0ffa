// Running a program that says something of an image.
ghost use Rattle.std.specs.Prelude.{◌≡◌, Ok, IfOk};
ghost use Rattle.std.specs.Process.{exit_status};
ghost use Rattle.program.specs.Statuses.{status_of};

use crate::sample::SAMPLE;
use anyhow::anyhow;
use std::alloc::{AllocError, Global};
use std::env;
use std::io::Read;
use std::process::ExitCode;

// One byte more than the longest image: more of the input cannot matter.
const MOST_READ: u64 = 19110;

fn input(rt: &HostRuntime) -> anyhow::Result<Vec<u8>> {
    let mut bytes = Vec::new(rt.alloc());
    rt.stdin().take(MOST_READ).read_to_end(&mut bytes)?;
    Ok(bytes)
}

// Whether the sample is asked for.
fn asks_sample(rt: &HostRuntime, name: &str) -> anyhow::Result<bool> {
    let mut sample = false;
    for word in env::args(rt)?.skip(1) {
        if word.as_str() != "--sample" {
            return Err(anyhow!("usage: {name} [--sample] < IMAGE"));
        }
        sample = true;
    }
    Ok(sample)
}

// What there is to say of the image, or the line of its refusal.
fn ask<S>(rt: &HostRuntime, name: &str, say: S) -> anyhow::Result<Result<String, String>>
where
    S: Fn(Global, &[u8]) -> Result<Result<String, String>, AllocError>,
    requires { S.IsAlwaysCallable say }
    ensures { IfOk result (λ said. (alloc : _) × (bytes : _) × S.post say alloc bytes (Ok said)) }
{
    if asks_sample(rt, name)? {
        let said = say(rt.alloc(), &SAMPLE)?;
        return Ok(said);
    }
    let bytes = input(rt)?;
    let said = say(rt.alloc(), bytes.as_slice())?;
    Ok(said)
}

fn status(said: &Result<String, String>) -> ExitCode
    ensures { exit_status result ≡ status_of said.now }
{
    match said {
        Ok(_) => ExitCode::SUCCESS,
        Err(_) => ExitCode::FAILURE,
    }
}

// Prints what there is to say of the image, with status 1 where it is refused. The image comes from standard input;
// with --sample it is a small one that is built in.
pub fn run<S>(rt: &HostRuntime, name: &str, say: S) -> anyhow::Result<ExitCode>
where
    S: Fn(Global, &[u8]) -> Result<Result<String, String>, AllocError>,
    requires { S.IsAlwaysCallable say }
    ensures { IfOk result (λ code. (alloc : _) × (bytes : _) × (said : _) × S.post say alloc bytes (Ok said) × (exit_status code ≡ status_of said)) }
{
    let said = ask(rt, name, say)?;
    let code = status(&said);
    let text = said.unwrap_or_else(|line| line);
    rt.print(text.as_str())?;
    Ok(code)
}
