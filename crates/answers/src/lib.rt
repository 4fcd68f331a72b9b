// What a call answers, as C and the programs that print have it: a number and a place, number 0 where nothing is turned down (document 01).
// Within the engine a refusal is passed on as such.
#![tactic(auto)]

ghost use Rattle.std.specs.Prelude.{◌≡◌, Some};
ghost use Rattle.rules.specs.Answers.{number_of, place_of, told};
ghost use Rattle.answers.specs.Answers.{answer_of, answer_text, count_answer, verdict_answer};

use rules::Refusal;
use std::fmt;

#[repr(C)]
#[derive(Clone, Copy)]
pub struct Answer {
    pub number: u64,
    pub place: u64,
}

// As the programs print it.
impl fmt::Display for Answer {
    ghost output = { λ a. Some (answer_text a) };

    fn fmt<W: fmt::Write>(&self, f: &mut fmt::Formatter<W>) -> fmt::Result {
        let Answer { number, place } = *self;
        write!(f, "{number} {place}")
    }
}

fn number(refusal: Refusal) -> u64
    ensures { result ≡ number_of refusal }
{
    match refusal {
        Refusal::Layout => 1,
        Refusal::Station(_) => 2,
        Refusal::Reservoir(_) => 3,
        Refusal::Pattern(_) => 4,
        Refusal::Right(_) => 5,
        Refusal::Lists => 6,
        Refusal::Board => 7,
        Refusal::Runoff(_) => 8,
        Refusal::Book => 9,
        Refusal::Year => 10,
        Refusal::Name => 11,
        Refusal::Full => 12,
    }
}

// The first at fault, where there is one.
fn place(refusal: Refusal) -> usize
    ensures { result ≡ place_of refusal }
{
    match refusal {
        Refusal::Station(i)
        | Refusal::Reservoir(i)
        | Refusal::Pattern(i)
        | Refusal::Right(i)
        | Refusal::Runoff(i) => i,
        _ => 0,
    }
}

// A place is cast, here and below: std has no `From` for `usize` to `u64`, and none is lost.
impl From<Refusal> for Answer {
    ghost from_gives = { λ r a. answer_of a ≡ told r };

    fn from(refusal: Refusal) -> Answer {
        Answer {
            number: number(refusal),
            place: place(refusal) as u64,
        }
    }
}

impl From<Result<(), Refusal>> for Answer {
    ghost from_gives = { λ v a. answer_of a ≡ verdict_answer v };

    fn from(verdict: Result<(), Refusal>) -> Answer {
        Answer::from(verdict.map(|()| 0))
    }
}

// Of an accepted call the place is what it counted.
impl From<Result<usize, Refusal>> for Answer {
    ghost from_gives = { λ c a. answer_of a ≡ count_answer c };

    fn from(count: Result<usize, Refusal>) -> Answer {
        match count {
            Ok(n) => Answer {
                number: 0,
                place: n as u64,
            },
            Err(refusal) => Answer::from(refusal),
        }
    }
}
