// The lines of a report to standard output. No contract can say what is written: it is what `line_of` tells, from line 0 on.
use super::line;
use super::prepare::Prepared;
use lines::lengths::LINE_BYTES;
use lines::text::Line;
use lines::write;

// Writes line after line, until there is none.
pub fn write_lines(p: Prepared, sets: &[u8], wires: &[u8]) {
    write::write_lines(Line::new(), |k: usize, line: &mut Line<LINE_BYTES>| {
        line::line_of(p, sets, wires, k, line)
    });
}
