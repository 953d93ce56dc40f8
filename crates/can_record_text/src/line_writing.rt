ghost use Rattle.can_record_text.specs.Lines.{LineGoesOut};

use std::io;
use std::io::{ErrorKind, Write};

/// Writes a line. If the writer fails, only a front part of the line has been written, never the whole line.
///
/// The line takes one write if the writer accepts it whole. A write that accepts no byte is a fault, and so is an
/// interrupted write.
pub fn write_line<W: Write>(writer: &mut W, line: &[u8]) -> io::Result<()>
    ensures { LineGoesOut (W.contents writer.old) (W.contents writer.new) line.now result }
{
    let mut done = 0;
    while done < line.len() {
        match writer.write(&line[done..]) {
            Ok(0) => return Err(ErrorKind::WriteZero.into()),
            Ok(taken) => done += taken,
            Err(why) => return Err(why),
        }
    }
    Ok(())
}
