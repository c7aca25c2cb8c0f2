// chain FILE ACCOUNT: prints an account's entries from an archive file, newest first, and their sum. What is printed
// is worked out and proved in `listing`, and so are the messages of a fault; here are only the arguments and the file.
#![tactic(auto)]

mod listing;

use anyhow::{Context, bail};
use listing::report;
use std::io::Write;
use std::process::ExitCode;
use std::{env, fs};

const USAGE: &str = "usage: chain FILE ACCOUNT (an archive's file, and an account from 1 to 32)";

fn run(rt: &HostRuntime) -> anyhow::Result<()> {
    let mut args = env::args(rt)?.skip(1);
    let (Some(path), Some(account), None) = (args.next(), args.next(), args.next()) else {
        bail!("{USAGE}");
    };
    let account = account.as_str().parse().context(USAGE)?;
    let bytes = fs::read(rt, path.as_str())?;
    let text = report(rt.alloc(), bytes.as_slice(), account)?;
    rt.stdout().write_all(text.as_bytes())?;
    Ok(())
}

// The message is one line of its own, so main hands out the status and not the error.
fn main(rt: HostRuntime) -> anyhow::Result<ExitCode> {
    match run(&rt) {
        Ok(()) => Ok(ExitCode::SUCCESS),
        Err(e) => {
            eprintln!(rt; "{e}")?;
            Ok(ExitCode::FAILURE)
        }
    }
}
