// Compares the letters' results with a table that a SQL engine made, each twice: from all of the key's rows, and caught up as the rows come.
#![tactic(auto)]

ghost use Rattle.std.specs.Prelude.{◌≤◌, length};

use figures::catching::{catch_up, due_rows};
use figures::cells::{Cell, Column, Outcome};
use figures::figure::Figure;
use figures::letters::{Letter, LetterFigure};
use figures::results::letter_at;
use figures::rows::KeptRows;
use std::alloc::{AllocError, Global};
use std::io;
use std::str::{FromStr, SplitWhitespace};

// How many rows come at a time.
const BATCH: usize = 5;

// A number, or "-" where there is none.
fn read_value<T: FromStr + Drop>(word: &str) -> Option<Option<T>>
where
    T::Err: Drop,
{
    match word {
        "-" => Some(None),
        _ => Some(Some(word.parse().ok()?)),
    }
}

fn read_row(words: &mut SplitWhitespace<'_>) -> Option<[Cell; 4]> {
    let mut cells = [None; 4];
    for cell in cells.iter_mut() {
        *cell = read_value(words.next()?)?;
    }
    Some(cells)
}

fn read_number(words: &mut SplitWhitespace<'_>) -> Option<u16> {
    words.next()?.parse().ok()
}

fn read_letter(name: &str) -> Option<Letter> {
    match name.as_bytes() {
        [byte] => Letter::try_from(*byte).ok(),
        _ => None,
    }
}

fn read_column(words: &mut SplitWhitespace<'_>) -> Option<Column> {
    let number: u8 = words.next()?.parse().ok()?;
    Column::try_from(number).ok()
}

// The figure that a line asks for: its letter, its column and its reaches.
fn read_figure(name: &str, words: &mut SplitWhitespace<'_>) -> Option<LetterFigure> {
    let letter = read_letter(name)?;
    let column = read_column(words)?;
    let before = read_number(words)?;
    let after = read_number(words)?;
    Some(LetterFigure {
        letter,
        column,
        before,
        after,
    })
}

// The results of every rank, worked out as they come due while the key's rows come, with only the last rows kept.
fn caught(
    heap: Global,
    figure: &LetterFigure,
    rows: &[[Cell; 4]],
) -> Result<Vec<Outcome>, AllocError>
    requires { length rows.now ≤ 4096 }
{
    let reach = usize::from(figure.before) + usize::from(figure.after);
    let mut all = Vec::new(heap);
    let mut carry = figure.start();
    let mut done: u32 = 0;
    let mut first: usize = 0;
    let mut came: usize = 0;
    // By places and not by chunks: a batch is worked out over rows kept from before it, so its slice begins in front of it.
    while came < rows.len() {
        came = (came + BATCH).min(rows.len());
        let due = due_rows(came as u32, came == rows.len(), figure.after);
        let mut results = vec![in heap; None; due.saturating_sub(done) as usize]?;
        let kept = KeptRows {
            first: first as u32,
            rows: &rows[first..came],
        };
        carry = catch_up(figure, carry, &kept, done, &mut results);
        all.extend_from_slice(&results)?;
        done = due;
        first = came.saturating_sub(reach);
    }
    Ok(all)
}

// The result of a rank, from all of the key's rows and from those that were kept, is the expected one.
fn agrees(
    figure: &LetterFigure,
    rows: &[[Cell; 4]],
    kept: &[Outcome],
    rank: u32,
    expected: Outcome,
) -> bool {
    kept.get(rank as usize) == Some(&expected) && letter_at(figure, rows, rank) == expected
}

// How many results a line has, from the rank `from` on, if all of them agree.
fn compare(
    figure: &LetterFigure,
    rows: &[[Cell; 4]],
    kept: &[Outcome],
    from: u16,
    words: &mut SplitWhitespace<'_>,
) -> Option<u32> {
    let mut count: u32 = 0;
    for word in words {
        let rank = count.saturating_add(u32::from(from));
        if !agrees(figure, rows, kept, rank, read_value(word)?) {
            return None;
        }
        count = count.saturating_add(1);
    }
    Some(count)
}

// A line that asks for results: how many it has, if all of them agree.
fn answer(
    heap: Global,
    rows: &[[Cell; 4]],
    name: &str,
    words: &mut SplitWhitespace<'_>,
) -> Result<Option<u32>, AllocError> {
    if rows.len() > 4096 {
        return Ok(None);
    }
    match (read_figure(name, words), read_number(words)) {
        (Some(figure), Some(from)) => {
            let kept = caught(heap, &figure, rows)?;
            Ok(compare(&figure, rows, &kept, from, words))
        }
        _ => Ok(None),
    }
}

// The number of results that agree, or the first line that is wrong or differs.
fn run(heap: Global, text: &str) -> Result<Result<u32, &str>, AllocError> {
    let mut rows = Vec::new(heap);
    let mut agreed: u32 = 0;
    for line in text.lines() {
        let mut words = line.split_whitespace();
        match words.next() {
            Some("key") => rows.clear(),
            Some("row") => match read_row(&mut words) {
                Some(row) => rows.push(row)?,
                None => return Ok(Err(line)),
            },
            Some(name) => match answer(heap, &rows, name, &mut words)? {
                Some(n) => agreed = agreed.saturating_add(n),
                None => return Ok(Err(line)),
            },
            None => return Ok(Err(line)),
        }
    }
    Ok(Ok(agreed))
}

fn main(rt: HostRuntime) -> io::Result<()> {
    let heap = rt.alloc();
    let text = io::read_to_string(heap, rt.stdin())?;
    match run(heap, text.as_str())? {
        Ok(agreed) => println!(rt; "{agreed} results agree"),
        Err(line) => println!(rt; "differs: {line}"),
    }
}
