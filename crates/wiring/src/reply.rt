// The reply: one case for each kind of answer, with only the numbers that it has.
ghost use Rattle.std.specs.Prelude.{◌≡◌};
ghost use Rattle.wiring.specs.Reply.{numbers, in_order};

#[derive(Clone, Copy)]
pub enum Reply {
    Done { order: u64, count: u64, steps: u64 },
    Setting,
    Length,
    Term { place: u64 },
    Twice { place: u64 },
    Nothing { order: u64, steps: u64 },
    Full { order: u64, steps: u64 },
    Spent { order: u64, steps: u64 },
    BadSet,
    NotQuadratic { order: u64, place: u64 },
    Unreadable { place: u64 },
    FalseLine { place: u64 },
}

// Code, order, count, steps and place of a reply. A function by this name: what is promised of the functions for C cites it.
pub fn numbers(r: Reply) -> [u64; 5]
    ensures { result ≡ in_order (numbers r) }
{
    match r {
        Reply::Done {
            order,
            count,
            steps,
        } => [0, order, count, steps, 0],
        Reply::Setting => [1, 0, 0, 0, 0],
        Reply::Length => [2, 0, 0, 0, 0],
        Reply::Term { place } => [3, 0, 0, 0, place],
        Reply::Twice { place } => [4, 0, 0, 0, place],
        Reply::Nothing { order, steps } => [5, order, 0, steps, 0],
        Reply::Full { order, steps } => [6, order, 0, steps, 0],
        Reply::Spent { order, steps } => [7, order, 0, steps, 0],
        Reply::BadSet => [8, 0, 0, 0, 0],
        Reply::NotQuadratic { order, place } => [9, order, 0, 0, place],
        Reply::Unreadable { place } => [10, 0, 0, 0, place],
        Reply::FalseLine { place } => [11, 0, 0, 0, place],
    }
}
