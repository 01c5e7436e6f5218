// flowclear: a bundle on standard input, what it holds on standard output.
#![tactic(auto)]

use notices::inspection::{InspectError, inspect};
use std::io::Read;
use std::process::ExitCode;

// What follows in a longer input is not read.
const LONGEST_BUNDLE: u64 = 65536;

fn main(rt: HostRuntime) -> ExitCode {
    match tell(&rt) {
        Ok(()) => ExitCode::SUCCESS,
        Err(error) => {
            // Where this cannot be written either, the status alone tells.
            let _ = eprintln!(rt; "flowclear: {error}");
            ExitCode::FAILURE
        }
    }
}

fn tell(rt: &HostRuntime) -> anyhow::Result<()> {
    let mut bundle = Vec::new(rt.alloc());
    rt.stdin().take(LONGEST_BUNDLE).read_to_end(&mut bundle)?;
    match inspect(bundle.as_slice()) {
        Ok(counts) => println!(rt; "{counts}")?,
        Err(InspectError::Fault(fault)) => println!(rt; "{fault}")?,
        Err(unread) => return Err(anyhow::Error::from(unread)),
    }
    Ok(())
}
