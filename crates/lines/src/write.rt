// Lines to standard output. No contract can say what is written: it is what is told of line 0, 1, ..
ghost use Rattle.std.specs.Prelude.{ℕ};
ghost use Rattle.lines.specs.Write.{EndsAt};

use std::convert::AsSlice;

// Writes line after line, until there is none. `tell` makes the line of a number, and says whether there is one.
pub fn write_lines<L: AsSlice<u8> + Drop, F: FnMut(usize, &mut L) -> bool + Drop>(
    mut line: L,
    mut tell: F,
)
    ghost most: { ℕ }
    requires callable { F.IsAlwaysCallable tell }
    requires ends { EndsAt F.FnMut most tell }
{
    // It is proved to end with the lines. A range of numbers would end too, but after 2^64 of them.
    let mut k: usize = 0;
    while tell(k, &mut line) {
        io::write_all(1, line.as_slice());
        k += 1;
    }
}
