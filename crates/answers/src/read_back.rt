// An answer read back from its bytes.
ghost use Rattle.std.specs.Prelude.{◌≡◌, ◌+◌, ◌*◌, ◌<◌, length};
ghost use Rattle.records.specs.Bytes.{word_at};
ghost use Rattle.answers.specs.ReadBack.{StandsAt};
ghost use Rattle.answers.specs.declared.Answer.{Answer as Answered};
ghost use Rattle.answers.specs.declared.Answer.TheVariants as answer;

use crate::Answer;
use crate::kind::Kind;
use day::{Figure, Refusal, Verdict};
use records::bytes::{bytes_at, code_at, word};

// The number of four bytes at i, the high ones first. No generic function with `word`: `from_be_bytes` is of no trait.
#[tactic(auto, using(records::proofs::Stages::four_there), unfolding(records::specs::Bytes::word_at))]
fn four_at(s: &[u8], i: usize) -> u32
    requires { i + 3 < length s.now }
    ensures { result ≡ word_at s.now i * 65536 + word_at s.now (i + 2) }
{
    u32::from_be_bytes(bytes_at(s, i))
}

// A day's answer with the verdict: the year and `d` stand behind the kind.
fn day_at(answers: &[u8], at: usize, verdict: Verdict) -> Answer
    requires { at + 4 < length answers.now }
    ensures { result ≡ answer.Day (word_at answers.now (at + 1)) (word_at answers.now (at + 3)) verdict }
{
    Answer::Day {
        year: word(answers, at + 1),
        d: word(answers, at + 3),
        verdict,
    }
}

// The one answer whose bytes stand at an offset. It is inlined into each walk: where it is called, the answer goes through memory, and is read there in
// other pieces than it was written in, for which the processor waits.
#[inline(always)]
pub fn answer_at(answers: &[u8], at: usize) -> Answer
    requires { (a : Answered) × StandsAt answers.now at a }
    ensures { (a : Answered) → StandsAt answers.now at a → result ≡ a }
{
    match Kind::try_from(answers[at]).unwrap() {
        Kind::Station => Answer::Station(code_at(answers, at + 1)),
        Kind::Crop => Answer::Crop {
            code: code_at(answers, at + 1),
            n: four_at(answers, at + 5),
        },
        Kind::Figure => day_at(answers, at, Ok(Figure::Measured(four_at(answers, at + 5)))),
        Kind::Estimate => day_at(answers, at, Ok(Figure::Estimated(four_at(answers, at + 5)))),
        Kind::Refusal => {
            let why = Refusal::try_from(four_at(answers, at + 5)).unwrap();
            day_at(answers, at, Err(why))
        }
    }
}
