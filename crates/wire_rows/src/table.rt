//! The table as a whole: its rows one after another, each whole and cut.
use crate::row::{Bytes, Row};
use crate::said::{Found, Said};
use crate::{calls, mirror, scalars};
use bytes::Buf;
use std::alloc::Global;
use std::io;
use std::process::ExitCode;
use wire_codec::{EncodeSink, Rope, RopeBuf};

// Rows with more bytes are cut in the middle alone.
const SHORT: usize = 1000;

/// Tries each row of a table, tells which are astray, and how many there are. Behind a line `half`
/// rows are cut in the middle alone; behind a line `mirror` stand no rows, but messages that are
/// answered by `mirror`.
pub fn run<R: Print + AllocGlobal>(rt: &R, text: &str) -> io::Result<ExitCode> {
    let mut table = Table::new(rt.alloc());
    for (index, line) in text.lines().enumerate() {
        if table.is_mirroring {
            mirror::run(rt, line)?;
        } else if table.is_astray(line) {
            let line = index.saturating_add(1);
            let (said, astray) = table.said.told();
            println!(rt; "line {line}: {said:?} {astray:?}")?;
        }
    }
    let (rows, astray) = (table.rows, table.astray);
    println!(rt; "{rows} rows, {astray} astray")?;
    Ok(ExitCode::from(table.status))
}

#[derive(Drop)]
struct Table {
    bytes: Bytes,
    said: Said,
    rows: usize,
    astray: usize,
    // 0 where each row found its own answer, 1 where one found another, else 2.
    status: u8,
    is_halving: bool,
    is_mirroring: bool,
}

impl Table {
    fn new(alloc: Global) -> Table {
        Table {
            bytes: Bytes::new(alloc),
            said: Said::new(alloc),
            rows: 0,
            astray: 0,
            status: 0,
            is_halving: false,
            is_mirroring: false,
        }
    }

    // Whether a line is a row, and one that is astray.
    fn is_astray(&mut self, line: &str) -> bool {
        match line {
            "half" => self.is_halving = true,
            "mirror" => self.is_mirroring = true,
            _ => return !is_remark(line) && self.is_row_astray(line),
        }
        false
    }

    fn is_row_astray(&mut self, line: &str) -> bool {
        self.rows = self.rows.saturating_add(1);
        self.said.clear();
        match self.found(line) {
            Found::Own => return false,
            Found::OutOfMemory if self.status != 1 => self.status = 2,
            _ => self.status = 1,
        }
        self.astray = self.astray.saturating_add(1);
        true
    }

    fn found(&mut self, line: &str) -> Found {
        match self.bytes.row(line, &mut self.said) {
            Some(row) => found(&row, self.is_halving, &mut self.said),
            None => {
                self.said.expect(false, "no row");
                self.said.found("")
            }
        }
    }
}

fn is_remark(line: &str) -> bool {
    line.is_empty() || line.starts_with("#")
}

// What a row finds: its call's answer, and where it reads from a buffer also that on the bytes cut.
fn found(row: &Row<'_>, is_halving: bool, said: &mut Said) -> Found {
    if calls::tell(row, said) {
        return said.found(row.answer);
    }
    let mut whole = row.bytes;
    let is_read = calls::read(row, &mut whole, said);
    said.expect(is_read, "no call");
    scalars::expect_one_advance(row, said);
    match said.found(row.answer) {
        Found::Own => found_in_pieces(row, is_halving, said),
        found => found,
    }
}

fn found_in_pieces(row: &Row<'_>, is_halving: bool, said: &mut Said) -> Found {
    let len = row.bytes.len();
    let (first, last) = match is_halving | (len > SHORT) {
        true => (len / 2, len / 2),
        false => (0, len),
    };
    for place in first..=last {
        said.clear();
        if let Some(mut pieces) = cut(row.bytes, place, said) {
            calls::read(row, &mut pieces, said);
        }
        let found = said.found(row.answer);
        if !matches!(found, Found::Own) {
            return found;
        }
    }
    Found::Own
}

/// A buffer whose chunks are two pieces of the bytes, or one where the other has no byte; none
/// where memory is wanting.
pub fn cut(bytes: &[u8], place: usize, said: &mut Said) -> Option<RopeBuf> {
    let (front, rest) = bytes.split_at_checked(place).unwrap_or((bytes, &[]));
    let mut rope = Rope::with_min_segment(said.alloc, 1);
    let front = said.made(bytes::Bytes::copy_from_slice(said.alloc, front))?;
    let rest = said.made(bytes::Bytes::copy_from_slice(said.alloc, rest))?;
    said.made(rope.put_shared(front))?;
    said.made(rope.put_shared(rest))?;
    said.made(RopeBuf::from_rope(rope))
}
