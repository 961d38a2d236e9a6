//! The words of a failure that no command can be made to have.
use base::Fault;
use command_line::{Failure, refuse};
use files::testing::{Failing, MemoryWriter};
use scenario::DivisionFault;
use std::process::Abort;

/// The lines that report a division's faults, and a run's.
const DIVISIONS: &[(DivisionFault, &str)] = &[
    (DivisionFault::Length, "swimsim: division V1\n"),
    (DivisionFault::PartNumber, "swimsim: division V2\n"),
    (DivisionFault::Parts, "swimsim: division V3\n"),
];

const RUNS: &[(Fault, &str)] = &[
    (Fault::Memory, "swimsim: run F1\n"),
    (Fault::CounterOverflow, "swimsim: run F2\n"),
    (Fault::Write, "swimsim: run F3\n"),
    (Fault::ThreadLost, "swimsim: run F4\n"),
];

/// Asserts that a failure has this status, also where standard error takes nothing, and prints this line.
fn assert_told(rt: &(impl Abort + AllocGlobal), failure: &Failure, line: &str, status: u8) {
    let mut err = MemoryWriter::new(rt.alloc(), Failing::Never);
    assert!(rt; refuse(failure, &mut err) == status, "{line}");
    assert!(rt; err.bytes() == line.as_bytes(), "{line}");
    let mut closed = MemoryWriter::new(rt.alloc(), Failing::AtWrite(1));
    assert!(rt; refuse(failure, &mut closed) == status, "{line}");
}

#[test]
fn each_failure_has_its_line_and_status(rt: HostRuntime) {
    assert_told(&rt, &Failure::File("a b"), "swimsim: file a b\n", 1);
    assert_told(&rt, &Failure::Usage, "swimsim: usage\n", 2);
    assert_told(&rt, &Failure::Rule(10), "swimsim: scenario rule 10\n", 3);
    assert_told(&rt, &Failure::Workers, "swimsim: workers\n", 4);
    assert_told(&rt, &Failure::Memory, "swimsim: memory\n", 5);
    assert_told(&rt, &Failure::Output, "", 1);
    for (fault, line) in DIVISIONS {
        assert_told(&rt, &Failure::Division(*fault), line, 4);
    }
    for (fault, line) in RUNS {
        assert_told(&rt, &Failure::Run(*fault), line, 5);
    }
}
