// The answer to one case: its line, and the buffer as the operation leaves it.
ghost use Rattle.std.specs.Prelude.{length};
ghost use Rattle.compare.specs.Answer.{case_of, Answers};

use super::head::{Head, Operation};
use desktop::read;
use lines::case;
use lines::lengths::LINE_BYTES;
use lines::text::Line;
use thin::thin as thinning;
use walk::plan;
use wiring::{answers, reply};

const FILLER: u8 = 165;

// The line of a case, which is made from what the operation says and leaves. The bytes that are there before show where an
// operation leaves the buffer as it was.
pub(crate) fn answer_case(
    h: Head,
    terms: &[u8],
    given: &[u8],
    buffer: &mut [u8],
    line: &mut Line<LINE_BYTES>,
)
    ensures { Answers (case_of h terms.now given.now (length buffer.old)) line.new buffer.new }
{
    buffer.fill(FILLER);
    match h.operation {
        Operation::Plan => {
            let planned = plan::plan(h.n, h.marks, h.degree, h.cap, h.limit, terms, buffer);
            case::case_line(reply::numbers(planned), buffer, line);
        },
        Operation::Wire => {
            let wired = answers::wire(h.n, h.marks, h.degree, terms, given, buffer);
            case::case_line(reply::numbers(wired), buffer, line);
        },
        Operation::Thin => {
            let thinned = thinning::thin(h.n, h.marks, h.degree, terms, given, buffer);
            case::case_line(reply::numbers(thinned), buffer, line);
        },
        Operation::Read => {
            let heard = read::read_listing(h.n, h.marks, h.degree, terms, given);
            case::case_line(reply::numbers(heard.reply), &heard.set, line);
        },
    }
}
