//! The lines of files, printed.
ghost use Rattle.std.specs.Prelude.{◌≡◌, OnOk};
ghost use Rattle.std.specs.Io.KnownBytes.{Appends};
ghost use Rattle.image_contents.specs.Lines.Printed.{line_text, lines_text, word_of as word_of_kind};

use crate::lines::Line;
use layout::InodeKind;
use std::io;
use std::io::Write;

/// Prints these lines.
pub fn print_lines<W: Write>(writer: &mut W, lines: &[Line]) -> io::Result<()>
    ensures { OnOk result (Appends (W.contents writer.old) (W.contents writer.new) (lines_text lines.now)) }
{
    'lines: for index in 0..lines.len() {
        print_line(writer, lines[index])?;
    }
    Ok(())
}

// Prints a line.
fn print_line<W: Write>(writer: &mut W, line: Line) -> io::Result<()>
    ensures { OnOk result (Appends (W.contents writer.old) (W.contents writer.new) (line_text line)) }
{
    writeln!(
        writer,
        "{} {} {:o} {} {} {} {} {}",
        line.number,
        word_of(line.kind),
        line.mode,
        line.uid,
        line.gid,
        line.nlink,
        line.size,
        line.blocks
    )
}

// The word for a kind of file.
fn word_of(kind: InodeKind) -> &'static str
    ensures { result.now ≡ word_of_kind kind }
{
    match kind {
        InodeKind::Regular => "file",
        InodeKind::Directory => "dir",
        InodeKind::Link => "link",
    }
}
