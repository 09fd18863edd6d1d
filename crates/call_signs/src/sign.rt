// Call signs: one to eight letters.
ghost use Rattle.std.specs.Prelude.{◌≡◌, [], ◌∷◌, length, take, MatchResult, IsFalse, refl};
ghost use Rattle.std.specs.Result.{result_ok};
ghost use Rattle.std.specs.Ordering.{as_partial_cmp};
ghost use Rattle.std.specs.Cmp.{on_equiv, on_total, partial_equiv_from_equiv, po};
ghost use Rattle.std.specs.Cmp.Lexicographic.{nat_list_eq_equiv, nat_list_cmp_total, bytes_decides};
ghost use Rattle.std.proofs.Common.{ap, rules};
ghost use Rattle.raw_bytes.specs.Numbers.{little_endian};
ghost use Rattle.call_signs.specs.Letters.{code};
ghost use Rattle.call_signs.specs.Spelling.{is_sign, padded, zeros, underscored};
ghost use Rattle.call_signs.specs.Signs.{sign_bytes, compared_bytes, added, sign_of, same_sign, sign_order, sign_hash, written_sign, sign_from, shown_sign};
ghost use Rattle.call_signs.specs.ReadBack.{sign_read_back, written_few, written_long, sign_only_written};
ghost use Rattle.call_signs.specs.Tied.{signs_tied, same_ties};

use crate::letter::Letter;
use keys::key::{JournalKey, Key, OrderedKey};
use raw_bytes::writer::Writer;
use std::cmp::Ordering;

// A call sign: a case for each length, so that no other call sign exists. There is no invariant to
// keep, and a sign can be written as a constant and matched on.
#[derive(Clone, Copy, Debug)]
pub enum CallSign {
    One(Letter),
    Two(Letter, Letter),
    Three(Letter, Letter, Letter),
    Four(Letter, Letter, Letter, Letter),
    Five(Letter, Letter, Letter, Letter, Letter),
    Six(Letter, Letter, Letter, Letter, Letter, Letter),
    Seven(Letter, Letter, Letter, Letter, Letter, Letter, Letter),
    Eight(Letter, Letter, Letter, Letter, Letter, Letter, Letter, Letter),
}

// Up to eight bytes, with zeros after them, and how many they are. Its memory is fixed, since the
// libraries have no heap.
#[derive(Clone, Copy, Debug, PartialEq, Eq)]
pub struct Spelling {
    pub bytes: [u8; 8],
    pub len: usize,
}

// The bytes are not one to eight letters.
#[derive(Clone, Copy, Debug, PartialEq, Eq)]
pub struct NoSign;

impl Spelling {
    // The bytes without the zeros after them.
    pub fn as_slice(&self) -> &[u8]
        ensures { result.now ≡ take self.now.len self.now.bytes }
    {
        &self.bytes[..self.len.min(8)]
    }
}

// The sign of one letter.
impl From<Letter> for CallSign {
    ghost from_gives = { λ letter sign. sign_bytes sign ≡ code letter ∷ [] };

    fn from(letter: Letter) -> CallSign {
        CallSign::One(letter)
    }
}

impl TryFrom<&[u8]> for CallSign {
    type Error = NoSign;

    ghost try_from_gives = { λ bytes read. (result_ok read ≡ sign_of bytes.now) × MatchResult read (λ sign. sign_bytes sign ≡ bytes.now) (λ _. IsFalse (is_sign bytes.now)) };

    fn try_from(bytes: &[u8]) -> Result<CallSign, NoSign> {
        read_sign(bytes).ok_or(NoSign)
    }
}

// The sign with these bytes, if they are one to eight letters.
fn read_sign(bytes: &[u8]) -> Option<CallSign>
    ensures { result ≡ sign_of bytes.now }
{
    let [first, rest @ ..] = bytes else {
        return None;
    };
    let mut sign = CallSign::One(Letter::try_from(*first).ok()?);
    for byte in rest {
        sign = sign.add(Letter::try_from(*byte).ok()?)?;
    }
    Some(sign)
}

impl CallSign {
    // The sign with one letter more, unless it has eight.
    pub fn add(self, letter: Letter) -> Option<CallSign>
        ensures { result ≡ added self letter }
    {
        match self {
            CallSign::One(a) => Some(CallSign::Two(a, letter)),
            CallSign::Two(a, b) => Some(CallSign::Three(a, b, letter)),
            CallSign::Three(a, b, c) => Some(CallSign::Four(a, b, c, letter)),
            CallSign::Four(a, b, c, d) => Some(CallSign::Five(a, b, c, d, letter)),
            CallSign::Five(a, b, c, d, e) => Some(CallSign::Six(a, b, c, d, e, letter)),
            CallSign::Six(a, b, c, d, e, f) => Some(CallSign::Seven(a, b, c, d, e, f, letter)),
            CallSign::Seven(a, b, c, d, e, f, g) => Some(CallSign::Eight(
                a, b, c, d, e, f, g, letter,
            )),
            CallSign::Eight(..) => None,
        }
    }

    // The sign's own bytes.
    pub fn spelled(self) -> Spelling
        ensures bytes { result.bytes ≡ padded (sign_bytes self) }
        ensures len { result.len ≡ length (sign_bytes self) }
    {
        match self {
            CallSign::One(a) => Spelling {
                bytes: [u8::from(a), 0, 0, 0, 0, 0, 0, 0],
                len: 1,
            },
            CallSign::Two(a, b) => Spelling {
                bytes: [u8::from(a), u8::from(b), 0, 0, 0, 0, 0, 0],
                len: 2,
            },
            CallSign::Three(a, b, c) => Spelling {
                bytes: [u8::from(a), u8::from(b), u8::from(c), 0, 0, 0, 0, 0],
                len: 3,
            },
            CallSign::Four(a, b, c, d) => Spelling {
                bytes: [
                    u8::from(a),
                    u8::from(b),
                    u8::from(c),
                    u8::from(d),
                    0,
                    0,
                    0,
                    0,
                ],
                len: 4,
            },
            CallSign::Five(a, b, c, d, e) => Spelling {
                bytes: [
                    u8::from(a),
                    u8::from(b),
                    u8::from(c),
                    u8::from(d),
                    u8::from(e),
                    0,
                    0,
                    0,
                ],
                len: 5,
            },
            CallSign::Six(a, b, c, d, e, f) => Spelling {
                bytes: [
                    u8::from(a),
                    u8::from(b),
                    u8::from(c),
                    u8::from(d),
                    u8::from(e),
                    u8::from(f),
                    0,
                    0,
                ],
                len: 6,
            },
            CallSign::Seven(a, b, c, d, e, f, g) => Spelling {
                bytes: [
                    u8::from(a),
                    u8::from(b),
                    u8::from(c),
                    u8::from(d),
                    u8::from(e),
                    u8::from(f),
                    u8::from(g),
                    0,
                ],
                len: 7,
            },
            CallSign::Eight(a, b, c, d, e, f, g, h) => Spelling {
                bytes: [
                    u8::from(a),
                    u8::from(b),
                    u8::from(c),
                    u8::from(d),
                    u8::from(e),
                    u8::from(f),
                    u8::from(g),
                    u8::from(h),
                ],
                len: 8,
            },
        }
    }

    // The bytes that equality, hash and both comparisons look at: all of the sign's own.
    pub fn compared(self) -> Spelling
        ensures bytes { result.bytes ≡ padded (compared_bytes self) }
        ensures len { result.len ≡ length (compared_bytes self) }
    {
        self.spelled()
    }

    // The compared bytes, with zeros behind them.
    pub fn padded(&self) -> [u8; 8]
        ensures { result ≡ padded (compared_bytes self.now) }
    {
        self.compared().bytes
    }
}

// Whether each byte is 0.
fn all_zero(bytes: &[u8]) -> bool
    ensures { result ≡ zeros bytes.now }
{
    bytes.iter().all(|byte| *byte == 0)
}

// The byte that a letter's byte is printed as: `_` for a blank.
fn printed(byte: u8) -> u8
    ensures { result ≡ underscored byte }
{
    if byte == b' ' { b'_' } else { byte }
}

// No derives: `compared` alone decides, which may come to look at less than all bytes.
impl PartialEq for CallSign {
    ghost eq = { same_sign };

    ghost laws = { partial_equiv_from_equiv (on_equiv compared_bytes nat_list_eq_equiv) };

    fn eq(&self, other: &Self) -> bool {
        let mine = self.compared();
        let theirs = other.compared();
        mine.as_slice() == theirs.as_slice()
    }
}

impl Eq for CallSign {
    ghost laws = { on_equiv compared_bytes nat_list_eq_equiv };
}

impl PartialOrd for CallSign {
    ghost partial_cmp = { as_partial_cmp sign_order };

    ghost laws = { po (on_total compared_bytes nat_list_cmp_total) signs_tied };

    fn partial_cmp(&self, other: &Self) -> Option<Ordering> {
        Some(self.cmp(other))
    }
}

impl Ord for CallSign {
    ghost cmp = { sign_order };

    ghost total = { on_total compared_bytes nat_list_cmp_total };

    ghost matches_partial_cmp = { λ x y. refl };

    ghost matches_eq = { signs_tied };

    fn cmp(&self, other: &Self) -> Ordering {
        let mine = self.compared();
        let theirs = other.compared();
        mine.as_slice().cmp(theirs.as_slice())
    }
}

impl Key for CallSign {
    ghost hashed = { sign_hash };

    ghost written = { written_sign };

    ghost parsed = { sign_from };

    ghost agree = { λ x y e. ap (λ bytes. little_endian 8 (padded bytes) 0) ((bytes_decides (compared_bytes x) (compared_bytes y)).0 e) };

    ghost short = { written_few };

    ghost again = { sign_read_back };

    fn hash(&self) -> u64 {
        u64::from_le_bytes(self.padded())
    }

    fn write(&self, writer: &mut Writer<'_>) {
        let sign = self.spelled();
        writer.put(sign.len as u8);
        writer.put_text(&sign.bytes);
    }

    fn read(bytes: &[u8]) -> Option<Self> {
        let [len, rest @ ..] = bytes else {
            return None;
        };
        let len = usize::from(*len);
        if rest.len() == 8 && len <= 8 && all_zero(&rest[len..]) {
            CallSign::try_from(&rest[..len]).ok()
        } else {
            None
        }
    }
}

impl OrderedKey for CallSign {
    ghost parts = { sign_order };

    ghost sorted = { on_total compared_bytes nat_list_cmp_total };

    ghost tied = { same_ties };

    fn compare_parts(&self, other: &Self) -> Ordering {
        self.cmp(other)
    }
}

impl JournalKey for CallSign {
    ghost width = { 9 };

    ghost shown = { shown_sign };

    ghost narrow = { Prim.search rules };

    ghost sized = { written_long };

    ghost only = { λ bytes x fit h. sign_only_written bytes x h };

    fn width() -> usize {
        9
    }

    fn show(&self, writer: &mut Writer<'_>) {
        let sign = self.spelled();
        let shown = sign.bytes.map(printed);
        writer.put_text(&shown[..sign.len]);
    }
}
