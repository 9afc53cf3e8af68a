// The exit code of each status.
use std::process::ExitCode;
use tp_run::Status;

#[test]
fn statuses_have_their_numbers(rt: HostRuntime) {
    for (status, number) in [
        (Status::Done, 0),
        (Status::Refused, 1),
        (Status::Usage, 2),
        (Status::ReadFault, 3),
        (Status::WriteFault, 4),
        (Status::Memory, 5),
        (Status::TooLong, 6),
    ] {
        assert_eq!(rt; status.exit_code(), ExitCode::from(number), "at {status:?}");
    }
}
