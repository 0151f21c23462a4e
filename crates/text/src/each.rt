// The answers that stand in bytes, one behind another.
ghost use Rattle.std.specs.Prelude.{◌≡◌, ◌-◌, ◌≤◌, length};
ghost use Rattle.std.specs.Iterator.{at_most};
ghost use Rattle.station_log.specs.Parts.{longest_answers};
ghost use Rattle.text.specs.Each.{AnswersFrom, Gives};

use answers::Answer;
use answers::read_back::answer_at;

// Bytes of answers, no more of them than a log's answers can have. Which answers they are no ghost field can say, since one
// states a fact and holds no list: so each contract names them, a whole log's in order in each block, and a block's by their months.
#[derive(Clone, Copy)]
pub(crate) struct Answers<'a> {
    pub bytes: &'a [u8],
    ghost few: { length bytes.now ≤ longest_answers },
}

impl<'a> Answers<'a> {
    pub(crate) fn each(self) -> Each<'a>
        ensures bytes { result.answers.now ≡ self.entry.bytes.now }
        ensures at { result.at ≡ 0 }
    {
        Each {
            answers: self.bytes,
            at: 0,
        }
    }
}

// Each of them in turn, with its offset.
#[derive(Clone, Copy)]
pub(crate) struct Each<'a> {
    pub answers: &'a [u8],
    pub at: usize,
}

impl Iterator for Each<'_> {
    type Item = (usize, Answer);

    ghost can_next = { λ s. AnswersFrom s.answers.now s.at };

    ghost next_gives = { λ s r t. (t.answers.now ≡ s.answers.now) × Gives s.answers.now s.at r t.at };

    ghost remaining = { λ s. at_most (length s.answers.now - s.at) };

    // Inlined, as `answer_at` is.
    #[inline(always)]
    fn next(&mut self) -> Option<(usize, Answer)> {
        let at = self.at;
        if at == self.answers.len() {
            return None;
        }
        let a = answer_at(self.answers, at);
        self.at = at + a.size();
        Some((at, a))
    }
}
