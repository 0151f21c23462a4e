// The kinds of answers, by the numbers that the documents give them: each is its answer's first byte.
ghost use Rattle.std.specs.Prelude.{◌≡◌};
ghost use Rattle.answers.specs.Kinds.{kind_number, KindOf};

// An answer's kind.
#[derive(Clone, Copy, Debug, PartialEq, Eq)]
pub enum Kind {
    Figure = 3,
    Refusal = 4,
    Station = 5,
    Crop = 7,
    Estimate = 9,
}

// A number that no kind has.
#[derive(Clone, Copy, Debug, PartialEq, Eq)]
pub struct UnknownKind(pub u8);

impl From<Kind> for u8 {
    ghost from_gives = { λ kind n. n ≡ kind_number kind };

    fn from(kind: Kind) -> u8 {
        kind as u8
    }
}

impl TryFrom<u8> for Kind {
    type Error = UnknownKind;

    ghost try_from_gives = { KindOf };

    fn try_from(n: u8) -> Result<Kind, UnknownKind> {
        match n {
            3 => Ok(Kind::Figure),
            4 => Ok(Kind::Refusal),
            5 => Ok(Kind::Station),
            7 => Ok(Kind::Crop),
            9 => Ok(Kind::Estimate),
            _ => Err(UnknownKind(n)),
        }
    }
}
