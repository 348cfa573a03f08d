// The five numbers of an answer for a path.
ghost use Rattle.std.specs.Prelude.{◌≡◌};
ghost use Rattle.model.specs.Answers.{round_number, numbers_of_path};
ghost use Rattle.path_answers.specs.Numbers.{five_of, Real};

use model::{PathAnswer, Refusal, Round};

// The number by which an answer names its round.
pub fn round_number(round: Round) -> u32
    ensures { result ≡ round_number round }
{
    match round {
        Round::First => 1,
        Round::Second => 2,
    }
}

// Document 01's number of an answer, its place, the total both ways, and the round of an answer 0.
pub fn five_of(answer: Result<PathAnswer, Refusal>) -> [u32; 5]
    requires { Real answer }
    ensures { result ≡ five_of (numbers_of_path answer) }
{
    match answer {
        Ok(
            PathAnswer::Found {
                total,
                float,
                round,
            },
        ) => [0, 0, total, f32::to_bits(float), round_number(round)],
        Ok(PathAnswer::NoPath) => [1, 0, 0, 0, 0],
        Ok(PathAnswer::End) => [2, 0, 0, 0, 0],
        Err(r) => [r.number, r.place, 0, 0, 0],
    }
}

// The number of an answer for a path; the place, the total, the bits of its float and the round are stored.
pub fn tell(answer: Result<PathAnswer, Refusal>, numbers: &mut [u32; 4]) -> u32
    requires { Real answer }
    ensures { (result ≡ (numbers_of_path answer).answer) × (numbers.new ≡ (numbers_of_path answer).others) }
{
    let [number, place, total, float, round] = five_of(answer);
    *numbers = [place, total, float, round];
    number
}
