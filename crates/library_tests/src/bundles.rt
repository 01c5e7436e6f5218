// Bundles: refusals in their order, and the lines that tell what was found.
use crate::samples::STEADY;
use notices::bundle::check as check_bundle;
use notices::inspection::inspect;
use std::alloc::Global;
use std::process::Abort;
use std::test::Fail;
use systems::fault::Fault;

// All events neutral, around the sample table.
fn steady_bundle() -> [u8; 167] {
    let mut bundle = [b'N'; 167];
    bundle[64] = b'\n';
    bundle[65] = 100;
    bundle[66] = 0;
    bundle[67..].copy_from_slice(&STEADY);
    bundle
}

// The number, part and place of the refusal; zeros where the bundle passes. (Only a bundle's fault
// has a part.)
fn refusal(bundle: &[u8]) -> (u8, u8, u16) {
    match check_bundle(bundle) {
        Ok(()) => (0, 0, 0),
        Err(fault) => (fault.number(), fault.part(), fault.place()),
    }
}

fn expect_line(rt: &impl Abort, heap: Global, bundle: &[u8], wanted: &str) -> Result<(), Fail> {
    let line = match inspect(bundle) {
        Ok(counts) => format!(in heap; "{counts}")?,
        Err(error) => format!(in heap; "{error}")?,
    };
    assert!(rt; line.as_str() == wanted);
    Ok(())
}

#[test]
fn bundle_faults_go_by_number(rt: HostRuntime) {
    let mut bundle = steady_bundle();
    assert_eq!(rt; refusal(&bundle), (0, 0, 0));
    bundle[69] = 3;
    assert_eq!(rt; refusal(&bundle), (7, 1, 0), "the table's own");
    bundle[66] = 1;
    assert_eq!(rt;
        refusal(&bundle),
        (4, 0, 0),
        "length before the table's own"
    );
    bundle[64] = b' ';
    assert_eq!(rt; refusal(&bundle), (3, 0, 0), "line feed before length");
    bundle[63] = b'n';
    assert_eq!(rt; refusal(&bundle), (2, 0, 63), "letter before line feed");
    bundle[9] = 0;
    assert_eq!(rt; refusal(&bundle), (2, 0, 9), "the lowest letter");
    assert_eq!(rt;
        refusal(&bundle[0..66]),
        (1, 0, 0),
        "shortness before letters"
    );
}

#[test]
fn a_record_keeps_its_number_and_place(rt: HostRuntime) {
    let mut bundle = steady_bundle();
    bundle[67 + 82] = 0;
    assert_eq!(rt; refusal(&bundle), (14, 1, 1));
}

#[test]
fn lines_tell_what_was_found(rt: HostRuntime) -> Result<(), Fail> {
    let mut bundle = steady_bundle();
    expect_line(&rt, rt.alloc(), &bundle, "states 3 reached 3")?;
    expect_line(&rt, rt.alloc(), &bundle[0..166], "refused 4 part 0 place 0")?;
    bundle[67 + 82] = 0;
    expect_line(&rt, rt.alloc(), &bundle, "refused 14 part 1 place 1")
}

#[test]
fn duty_bytes_are_told_apart(rt: HostRuntime) -> Result<(), Fail> {
    let mut bundle = steady_bundle();
    bundle[65] = 76;
    bundle[71] = 0;
    expect_line(&rt, rt.alloc(), &bundle, "refused 11 part 1 place 0")?;
    bundle[137] = 0;
    bundle[139] = 0;
    bundle[141] = 0;
    expect_line(
        &rt,
        rt.alloc(),
        &bundle,
        "duty bytes are not read yet: 24 after the table",
    )
}
