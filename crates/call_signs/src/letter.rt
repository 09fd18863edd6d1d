// The letters of call signs: A to Z, 0 to 9 and the blank.
ghost use Rattle.std.specs.Prelude.{◌≡◌, MatchResult, IsFalse};
ghost use Rattle.std.specs.Result.{result_ok};
ghost use Rattle.call_signs.specs.Letters.{code, letter_of, is_letter};

// A letter of a call sign. Its number is its byte.
#[derive(Clone, Copy, Debug, PartialEq, Eq, PartialOrd, Ord)]
pub enum Letter {
    Blank = 32,
    N0 = 48,
    N1 = 49,
    N2 = 50,
    N3 = 51,
    N4 = 52,
    N5 = 53,
    N6 = 54,
    N7 = 55,
    N8 = 56,
    N9 = 57,
    A = 65,
    B = 66,
    C = 67,
    D = 68,
    E = 69,
    F = 70,
    G = 71,
    H = 72,
    I = 73,
    J = 74,
    K = 75,
    L = 76,
    M = 77,
    N = 78,
    O = 79,
    P = 80,
    Q = 81,
    R = 82,
    S = 83,
    T = 84,
    U = 85,
    V = 86,
    W = 87,
    X = 88,
    Y = 89,
    Z = 90,
}

// The byte is no letter's.
#[derive(Clone, Copy, Debug, PartialEq, Eq)]
pub struct NoLetter;

impl From<Letter> for u8 {
    ghost from_gives = { λ letter byte. byte ≡ code letter };

    fn from(letter: Letter) -> u8 {
        letter as u8
    }
}

impl TryFrom<u8> for Letter {
    type Error = NoLetter;

    ghost try_from_gives = { λ byte read. (result_ok read ≡ letter_of byte) × MatchResult read (λ letter. code letter ≡ byte) (λ _. IsFalse (is_letter byte)) };

    fn try_from(byte: u8) -> Result<Letter, NoLetter> {
        match byte {
            b' ' => Ok(Letter::Blank),
            b'0' => Ok(Letter::N0),
            b'1' => Ok(Letter::N1),
            b'2' => Ok(Letter::N2),
            b'3' => Ok(Letter::N3),
            b'4' => Ok(Letter::N4),
            b'5' => Ok(Letter::N5),
            b'6' => Ok(Letter::N6),
            b'7' => Ok(Letter::N7),
            b'8' => Ok(Letter::N8),
            b'9' => Ok(Letter::N9),
            b'A' => Ok(Letter::A),
            b'B' => Ok(Letter::B),
            b'C' => Ok(Letter::C),
            b'D' => Ok(Letter::D),
            b'E' => Ok(Letter::E),
            b'F' => Ok(Letter::F),
            b'G' => Ok(Letter::G),
            b'H' => Ok(Letter::H),
            b'I' => Ok(Letter::I),
            b'J' => Ok(Letter::J),
            b'K' => Ok(Letter::K),
            b'L' => Ok(Letter::L),
            b'M' => Ok(Letter::M),
            b'N' => Ok(Letter::N),
            b'O' => Ok(Letter::O),
            b'P' => Ok(Letter::P),
            b'Q' => Ok(Letter::Q),
            b'R' => Ok(Letter::R),
            b'S' => Ok(Letter::S),
            b'T' => Ok(Letter::T),
            b'U' => Ok(Letter::U),
            b'V' => Ok(Letter::V),
            b'W' => Ok(Letter::W),
            b'X' => Ok(Letter::X),
            b'Y' => Ok(Letter::Y),
            b'Z' => Ok(Letter::Z),
            _ => Err(NoLetter),
        }
    }
}
