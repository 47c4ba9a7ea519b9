// Lines that cannot be carried out, and why; and the last ones that can.
use script::command::LineError;
use script::read::read_line;

const LINES: [(&str, Option<LineError>); 24] = [
    ("bok account 1 5", Some(LineError::UnknownCommand)),
    (" covers", Some(LineError::UnknownCommand)),
    ("book prepaid 1 5", Some(LineError::UnknownKind)),
    ("book account", Some(LineError::MissingWord)),
    ("pay-in 1", Some(LineError::MissingWord)),
    ("pay-in 1 2 3", Some(LineError::SpareWord)),
    ("covers ", Some(LineError::SpareWord)),
    ("pay-in 1 1x", Some(LineError::BadNumber)),
    ("pay-in 1 -1", Some(LineError::BadNumber)),
    ("pay-in 1 ", Some(LineError::BadNumber)),
    ("pay-in 1 18446744073709551615", None),
    ("pay-in 1 18446744073709551616", Some(LineError::BadNumber)),
    ("offer -9223372036854775808 9223372036854775807", None),
    ("offer -9223372036854775809", Some(LineError::BadNumber)),
    ("offer 9223372036854775808", Some(LineError::BadNumber)),
    ("offer 1  2", Some(LineError::BadNumber)),
    ("offer -", Some(LineError::BadNumber)),
    ("cov\\65rs", None),
    ("pay-in \\31 \\32", None),
    ("covers\\20", Some(LineError::UnknownCommand)),
    ("pay-in 1 \\3", Some(LineError::BadEscape)),
    ("pay-in 1 \\3g", Some(LineError::BadEscape)),
    ("# \\", None),
    ("", None),
];

#[test]
fn lines_are_read_or_refused(rt: HostRuntime) {
    for (line, error) in LINES {
        assert_eq!(rt;
            read_line(rt.alloc(), line.as_bytes()).err(),
            error,
            "{}",
            line
        );
    }
}
