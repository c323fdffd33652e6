// The lines of a report, one by one.
ghost use Rattle.std.specs.Prelude.{◌≡◌, ◌+◌, ◌*◌, ◌≤◌, ◌<◌, ◌↔◌, length, IsTrue};
ghost use Rattle.wiring.specs.Reply.{outcome};
ghost use Rattle.report.specs.Prepare.{counted, slot, results_in};
ghost use Rattle.report.specs.Report.{lines_of, line_at};

use super::prepare::Prepared;
use lines::answer;
use lines::lengths::LINE_BYTES;
use lines::text::Line;
use wiring::panel::{SET_BYTES, WIRE_BYTES};
use wiring::reply;
use wiring::reply::Reply;

// Record number i of a buffer with records of one size.
fn record_at<const SIZE: usize>(bytes: &[u8], i: usize) -> [u8; SIZE]
    requires { SIZE * i + SIZE ≤ length bytes.now }
    ensures { result ≡ slot SIZE bytes.now i }
{
    let at = SIZE * i;
    let mut record = [0; SIZE];
    let whole = &mut record[..];
    whole.copy_from_slice(&bytes[at..at + SIZE]);
    record
}

// Line number k, where all of `sets` was lent, and whether there is one.
fn line_in(
    reply: Reply,
    count: u64,
    sets: &[u8],
    wires: &[u8],
    k: usize,
    line: &mut Line<LINE_BYTES>,
) -> bool
    ensures text { line.new ≡ line_at (lines_of (record { listed = outcome reply sets.now; wiring = counted count wires.now })) k }
    ensures there { IsTrue result ↔ (k < length (lines_of (record { listed = outcome reply sets.now; wiring = counted count wires.now }))) }
{
    let five = reply::numbers(reply);
    if k == 0 {
        answer::reply_line(five, line);
        return true;
    }
    line.clear();
    if five[0] != 0 {
        return false;
    }
    let i = k - 1;
    let shown = five[2].min((sets.len() / SET_BYTES) as u64) as usize;
    if i < shown {
        answer::set_line(&record_at(sets, i), five[1] as usize, line);
        return true;
    }
    let j = i - shown;
    let wired = count.min((wires.len() / WIRE_BYTES) as u64) as usize;
    if j < wired {
        answer::wire_line(&record_at(wires, j), line);
        return true;
    }
    false
}

// Line number k, from 0, and whether there is one: nothing behind the last.
pub fn line_of(
    p: Prepared,
    sets: &[u8],
    wires: &[u8],
    k: usize,
    line: &mut Line<LINE_BYTES>,
) -> bool
    ensures text { line.new ≡ line_at (lines_of (results_in p sets.now wires.now)) k }
    ensures there { IsTrue result ↔ (k < length (lines_of (results_in p sets.now wires.now))) }
{
    let lent = p.lent.min(sets.len());
    line_in(p.reply, p.wires, &sets[..lent], wires, k, line)
}
