//! Lines of Prometheus' text format, version 0.0.4.

ghost use Rattle.std.specs.Prelude.{OnOk};
ghost use Rattle.std.specs.Io.KnownBytes.{Appends};
ghost use Rattle.metrics.specs.Lines.{family, labelled, sample};

use std::io::{self, Write};

/// Begins a metric: what it is, and of which type.
pub(crate) fn put_family<W: Write>(
    out: &mut W,
    name: &str,
    kind: &str,
    help: &str,
) -> io::Result<()>
    ensures { OnOk result (Appends (W.contents out.old) (W.contents out.new)
        (family name.now kind.now help.now)) }
{
    write!(out, "# HELP {name} {help}\n# TYPE {name} {kind}\n")
}

/// A sample without a label.
pub(crate) fn put_sample<W: Write>(out: &mut W, name: &str, value: u64) -> io::Result<()>
    ensures { OnOk result (Appends (W.contents out.old) (W.contents out.new)
        (sample name.now value)) }
{
    writeln!(out, "{name} {value}")
}

/// A sample with a label.
pub(crate) fn put_labelled<W: Write>(
    out: &mut W,
    name: &str,
    label: &str,
    text: &str,
    value: u64,
) -> io::Result<()>
    ensures { OnOk result (Appends (W.contents out.old) (W.contents out.new)
        (labelled name.now label.now text.now value)) }
{
    writeln!(out, "{name}{{{label}=\"{text}\"}} {value}")
}
