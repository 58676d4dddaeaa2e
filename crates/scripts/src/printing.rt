//! The lines that are printed.

ghost use Rattle.std.specs.Prelude.{◌≡◌, ◌≤◌, ◌==◌, [], ◌∷◌, ◌++◌, length, codes};
ghost use Rattle.std.specs.Prelude.{if◌then◌else◌, IfSome, IfErr, OnOk};
ghost use Rattle.std.specs.Fmt.{decimal};
ghost use Rattle.std.specs.Io.KnownBytes.{Appends};
ghost use Rattle.hex.specs.Hex.{encode_lower};
ghost use Rattle.engine.specs.Numbers.{refusal_number};
ghost use Rattle.scripts.specs.Lines.{spaced};

use crate::fault::ProgramFault;
use engine::{PartCounts, Refusal};
use nfs_values::ConnectionNumber;
use std::fmt::Display;
use std::io::Write;

/// How many bytes are spelled in one write.
const PIECE: usize = 256;

/// The hex digits of this many bytes.
const DIGITS: usize = 512;

/// Prints a line.
pub(crate) fn say<W: Write, D: Display + Drop>(out: &mut W, line: D) -> Result<(), ProgramFault>
    ensures line { OnOk result (IfSome (D.output line)
        (λ text. Appends (W.contents out.old) (W.contents out.new) (text ++ 10 ∷ []))) }
    ensures err { IfErr result (λ fault. fault ≡ ProgramFault.Output) }
{
    writeln!(out, "{line}").map_err(|_| ProgramFault::Output)
}

/// Prints a piece in lower-case hex, in one write.
fn print_piece<W: Write>(out: &mut W, piece: &[u8]) -> Result<(), ProgramFault>
    requires { length piece.now ≤ PIECE }
    ensures digits { OnOk result
        (Appends (W.contents out.old) (W.contents out.new) (encode_lower piece.now)) }
    ensures err { IfErr result (λ fault. fault ≡ ProgramFault.Output) }
{
    let mut digits = [0; DIGITS];
    let spelled = &mut digits[..2 * piece.len()];
    hex::encode_to_slice(piece, spelled).unwrap();
    out.write_all(spelled).map_err(|_| ProgramFault::Output)
}

/// Prints bytes in lower-case hex.
fn print_hex<W: Write>(out: &mut W, bytes: &[u8]) -> Result<(), ProgramFault>
    ensures digits { OnOk result
        (Appends (W.contents out.old) (W.contents out.new) (encode_lower bytes.now)) }
    ensures err { IfErr result (λ fault. fault ≡ ProgramFault.Output) }
{
    let mut rest = bytes;
    while !rest.is_empty() {
        let (piece, others) = rest.split_at(rest.len().min(PIECE));
        print_piece(out, piece)?;
        rest = others;
    }
    Ok(())
}

/// Prints the bytes that were written to a connection: `out`, its number and the bytes in hex, or
/// `-` for none.
pub(crate) fn print_output<W: Write>(
    out: &mut W,
    connection: ConnectionNumber,
    bytes: &[u8],
) -> Result<(), ProgramFault>
    ensures line { OnOk result (Appends (W.contents out.old) (W.contents out.new)
        (codes "out " ++ decimal connection.0 ++ codes " "
        ++ (if length bytes.now == 0 then codes "-" else encode_lower bytes.now) ++ 10 ∷ [])) }
    ensures err { IfErr result (λ fault. fault ≡ ProgramFault.Output) }
{
    if bytes.is_empty() {
        return say(out, format_args!("out {connection} -"));
    }
    write!(out, "out {connection} ").map_err(|_| ProgramFault::Output)?;
    print_hex(out, bytes)?;
    out.write_all(b"\n").map_err(|_| ProgramFault::Output)
}

/// Prints a number behind a space.
fn print_number<W: Write>(out: &mut W, number: u32) -> Result<(), ProgramFault>
    ensures digits { OnOk result (Appends (W.contents out.old) (W.contents out.new)
        (codes " " ++ decimal number)) }
    ensures err { IfErr result (λ fault. fault ≡ ProgramFault.Output) }
{
    write!(out, " {number}").map_err(|_| ProgramFault::Output)
}

/// Prints numbers, each behind a space.
fn print_numbers<W: Write>(out: &mut W, numbers: &[u32]) -> Result<(), ProgramFault>
    ensures digits { OnOk result
        (Appends (W.contents out.old) (W.contents out.new) (spaced numbers.now)) }
    ensures err { IfErr result (λ fault. fault ≡ ProgramFault.Output) }
{
    for number in numbers {
        print_number(out, *number)?;
    }
    Ok(())
}

/// Prints how many blocks are free in each range: `free` and these counts.
pub(crate) fn print_counts<W: Write>(out: &mut W, counts: &[u32]) -> Result<(), ProgramFault>
    ensures line { OnOk result (Appends (W.contents out.old) (W.contents out.new)
        (codes "free" ++ spaced counts.now ++ 10 ∷ [])) }
    ensures err { IfErr result (λ fault. fault ≡ ProgramFault.Output) }
{
    write!(out, "free").map_err(|_| ProgramFault::Output)?;
    print_numbers(out, counts)?;
    out.write_all(b"\n").map_err(|_| ProgramFault::Output)
}

/// Prints how many blocks of a volume are in each part, and in all.
pub(crate) fn print_parts<W: Write>(out: &mut W, counts: PartCounts) -> Result<(), ProgramFault>
    ensures line { OnOk result (Appends (W.contents out.old) (W.contents out.new)
        (codes "files " ++ decimal counts.files ++ codes " stock " ++ decimal counts.stock
        ++ codes " dead " ++ decimal counts.dead ++ codes " free " ++ decimal counts.free
        ++ codes " hands " ++ decimal counts.hands ++ codes " total " ++ decimal counts.total
        ++ 10 ∷ [])) }
    ensures err { IfErr result (λ fault. fault ≡ ProgramFault.Output) }
{
    let PartCounts {
        files,
        stock,
        dead,
        free,
        hands,
        total,
    } = counts;
    say(
        out,
        format_args!(
            "files {files} stock {stock} dead {dead} free {free} hands {hands} total {total}",
        ),
    )
}

/// Prints that a line was refused: `refused` and the number by which this is told.
pub(crate) fn print_refusal<W: Write>(out: &mut W, refusal: Refusal) -> Result<(), ProgramFault>
    ensures line { OnOk result (Appends (W.contents out.old) (W.contents out.new)
        (codes "refused " ++ decimal (refusal_number refusal) ++ 10 ∷ [])) }
    ensures err { IfErr result (λ fault. fault ≡ ProgramFault.Output) }
{
    let number = refusal.number();
    say(out, format_args!("refused {number}"))
}

/// Prints a fault, unless the output is what failed. The exit status tells of one that can't be
/// printed.
pub fn print_fault<W: Write>(out: &mut W, fault: ProgramFault) {
    if fault != ProgramFault::Output {
        let _ = say(out, fault);
    }
}
