//! Values of options that can't be read.

use std::fmt;

/// A value of an option that can't be read, and what would be right.
#[derive(Clone, Copy)]
pub(crate) struct WrongValue<'a> {
    pub(crate) option: &'static str,
    pub(crate) value: &'a str,
    pub(crate) wanted: &'static str,
}

impl fmt::Display for WrongValue<'_> {
    fn fmt<W: fmt::Write>(&self, f: &mut fmt::Formatter<W>) -> fmt::Result {
        let (option, value, wanted) = (self.option, self.value, self.wanted);
        write!(
            f,
            "error: invalid value '{value}' for '--{option}': {wanted}"
        )
    }
}

/// A value that can't be read.
pub(crate) fn wrong<'a>(
    option: &'static str,
    value: &'a str,
    wanted: &'static str,
) -> WrongValue<'a> {
    WrongValue {
        option,
        value,
        wanted,
    }
}

/// An address and port of an option.
pub(crate) const ADDRESS: &str =
    "an IP address or a host's name, and a port, are wanted, as 127.0.0.1:2049";

/// A host's name that isn't known.
pub(crate) const HOST: &str = "no address of that host is known";

/// A network of `--allow` or `--allow-read`.
pub(crate) const NETWORK: &str =
    "a network or a host's name is wanted, as 10.0.0.0/8, whose bits behind these 8 are 0";

/// One network too many.
pub(crate) const NETWORKS: &str = "at most 16 networks may be named";

/// The size of a volume.
pub(crate) const VOLUME_SIZE: &str = "a size from 4M to 1T is wanted, as 40G";

/// The size of a file.
pub(crate) const FILE_SIZE: &str = "a size from 16M to 1T is wanted, as 40G";

/// What may be owed.
pub(crate) const OWED: &str = "a size of at least 64M is wanted, as 1G";

/// Whose calls are anonymous.
pub(crate) const SQUASH: &str = "none, root or all is wanted";

/// Who is anonymous.
pub(crate) const ANONYMOUS: &str = "a uid and a gid are wanted, as 65534:65534";

/// The mode of roots.
pub(crate) const ROOT_MODE: &str = "octal digits up to 7777 are wanted, as 1777";

/// A number of an option.
pub(crate) const NUMBER: &str = "a number in its range is wanted";
