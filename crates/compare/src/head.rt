// The head of a case: 56 bytes, each number low byte first.
ghost use Rattle.std.specs.Prelude.{◌≡◌, ◌+◌, ◌≤◌, take, drop};
ghost use Rattle.compare.specs.Head.{head_bytes, head_of, right, Numbered};

pub(crate) const HEAD_BYTES: usize = 56;

// The longest terms, set or text, and buffer that are answered.
const LONGEST_TERMS: usize = 600;

const LONGEST_GIVEN: usize = 8192;

const LONGEST_BUFFER: usize = 65536;

// What is asked of a case.
#[derive(Clone, Copy, Debug, PartialEq, Eq)]
pub enum Operation {
    Plan,
    Wire,
    Thin,
    Read,
}

// A number that is no operation's.
#[derive(Clone, Copy, Debug, PartialEq, Eq)]
pub struct UnknownOperation(pub u16);

// The operations are numbered from 1.
impl TryFrom<u16> for Operation {
    type Error = UnknownOperation;

    ghost try_from_gives = { Numbered };

    fn try_from(number: u16) -> Result<Self, UnknownOperation> {
        match number {
            1 => Ok(Operation::Plan),
            2 => Ok(Operation::Wire),
            3 => Ok(Operation::Thin),
            4 => Ok(Operation::Read),
            _ => Err(UnknownOperation(number)),
        }
    }
}

#[derive(Clone, Copy)]
pub struct Head {
    pub operation: Operation,
    pub terms: usize,
    pub given: usize,
    pub n: u64,
    pub marks: u64,
    pub degree: u64,
    pub cap: u64,
    pub limit: u64,
    pub size: usize,
}

// So many bytes from a place on.
fn bytes_at<const N: usize>(b: &[u8; HEAD_BYTES], at: usize) -> [u8; N]
    requires { at + N ≤ head_bytes }
    ensures { result ≡ take N (drop at b.now) }
{
    *b[at..].first_chunk().unwrap()
}

// Nothing where the operation is unknown.
pub(crate) fn read(b: &[u8; HEAD_BYTES]) -> Option<Head>
    ensures { result ≡ head_of b.now }
{
    Some(Head {
        operation: Operation::try_from(u16::from_le_bytes(bytes_at(b, 0))).ok()?,
        terms: usize::from(u16::from_le_bytes(bytes_at(b, 2))),
        given: u32::from_le_bytes(bytes_at(b, 4)) as usize,
        n: u64::from_le_bytes(bytes_at(b, 8)),
        marks: u64::from_le_bytes(bytes_at(b, 16)),
        degree: u64::from_le_bytes(bytes_at(b, 24)),
        cap: u64::from_le_bytes(bytes_at(b, 32)),
        limit: u64::from_le_bytes(bytes_at(b, 40)),
        size: u64::from_le_bytes(bytes_at(b, 48)) as usize,
    })
}

// The lengths are within the limits.
pub(crate) fn is_right(h: Head) -> bool
    ensures { result ≡ right h }
{
    h.terms <= LONGEST_TERMS && h.given <= LONGEST_GIVEN && h.size <= LONGEST_BUFFER
}
