//! Sizes in words of a command line.

/// What may stand behind a number, with the bytes that it means.
const UNITS: [(&str, u64); 12] = [
    ("K", 1_024),
    ("k", 1_024),
    ("KiB", 1_024),
    ("M", 1_048_576),
    ("m", 1_048_576),
    ("MiB", 1_048_576),
    ("G", 1_073_741_824),
    ("g", 1_073_741_824),
    ("GiB", 1_073_741_824),
    ("T", 1_099_511_627_776),
    ("t", 1_099_511_627_776),
    ("TiB", 1_099_511_627_776),
];

/// The number of a text of digits alone.
fn number_in(text: &str) -> Option<u64> {
    if text.starts_with('+') {
        return None;
    }
    text.parse::<u64>().ok()
}

/// The bytes that a text names: a number, or one of KiB, MiB, GiB or TiB, as `512M`, `512m` or
/// `512MiB`.
pub(crate) fn bytes_in(text: &str) -> Option<u64> {
    for (ending, unit) in &UNITS {
        if let Some(number) = text.strip_suffix(*ending) {
            return number_in(number)?.checked_mul(*unit);
        }
    }
    number_in(text)
}
