// What a session is asked, and what it answers.
ghost use Rattle.std.specs.Prelude.{◌≡◌};
ghost use Rattle.model.specs.Numbers.{answer_number};
ghost use Rattle.model.specs.Table.{bad_order};

// The number of a vertex. Bytes stand for it only where a format says so.
pub type Vertex = u16;

// The most vertices that a make accepts.
const MAKE_LIMIT: u16 = 200;

// Whether a make is refused for its order, whatever memory there is.
pub fn is_bad_order(n: u16) -> bool
    ensures { result ≡ bad_order n }
{
    !(1..=MAKE_LIMIT).contains(&n)
}

// A call of a session.
#[derive(Debug, Clone, Copy, PartialEq, Eq)]
pub enum Call {
    Make(u16),
    Join(Vertex, Vertex),
    Part(Vertex, Vertex),
    Strike(Vertex, Vertex),
    Lift(Vertex, Vertex),
}

// What an accepted call answers, by the number that it prints.
#[derive(Debug, Clone, Copy, PartialEq, Eq)]
pub enum Answer {
    Made = 0x81,
    Joined = 0x82,
    Parted = 0x83,
    Struck = 0x84,
    Lifted = 0x85,
}

// The number of an answer. By cases, since an answer that comes to hold values can keep no number of its own.
impl From<Answer> for u8 {
    ghost from_gives = { λ answer number. number ≡ answer_number answer };

    fn from(answer: Answer) -> u8 {
        match answer {
            Answer::Made => 0x81,
            Answer::Joined => 0x82,
            Answer::Parted => 0x83,
            Answer::Struck => 0x84,
            Answer::Lifted => 0x85,
        }
    }
}
