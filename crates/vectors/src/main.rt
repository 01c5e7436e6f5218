// Holds what is found in bundles to the notices that an independent program wrote of them.
#![tactic(auto)]

use notices::inspection::{InspectError, inspect};
use std::{env, fs};

fn main(rt: HostRuntime) -> anyhow::Result<()> {
    compare_all(&rt)
}

// Each argument names a bundle and its notice.
fn compare_all(rt: &HostRuntime) -> anyhow::Result<()> {
    for name in env::args(rt)?.skip(1) {
        compare(rt, name.as_str())?;
    }
    Ok(())
}

fn compare(rt: &HostRuntime, name: &str) -> anyhow::Result<()> {
    let bundle = fs::read(rt, format!(in rt.alloc(); "{name}.bundle")?)?;
    let notice = fs::read_to_string(rt, format!(in rt.alloc(); "{name}.notice")?)?;
    // A notice goes on after the counts of states; that of a refused bundle is this line alone.
    let (line, wanted) = match inspect(bundle.as_slice()) {
        Ok(counts) => (
            format!(in rt.alloc(); "{counts}")?,
            format!(in rt.alloc(); "{counts} pairs ")?,
        ),
        Err(InspectError::Fault(fault)) => (
            format!(in rt.alloc(); "{fault}")?,
            format!(in rt.alloc(); "{fault}\n")?,
        ),
        Err(InspectError::Duty(_)) => {
            println!(rt; "{name}: duty bytes are not read yet")?;
            return Ok(());
        }
    };
    if notice.as_str().starts_with(wanted.as_str()) {
        println!(rt; "{name}: agrees")?;
    } else {
        println!(rt; "{name}: differs, found {line}")?;
    }
    Ok(())
}
