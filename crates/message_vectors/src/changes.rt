// All single-byte changes of a file.
ghost use Rattle.std.specs.Prelude.{◌<◌, length};

use crate::parts::{append, split_rows};
use crate::reading::written_back;
use crate::{FILE_ROOM, ROWS_ROOM};
use std::io;

// Whether a file is read; one that is must be written back.
fn is_read(rt: &impl Print, file: &[u8], rows: &mut [u64]) -> io::Result<bool> {
    let Ok(facts) = reader::read(file, rows) else {
        return Ok(false);
    };
    if !written_back(facts, file, split_rows(rows, facts.rows).0) {
        println!(rt; "not written back")?;
    }
    Ok(true)
}

// With how many of the 256 values of the byte at a place the file is read.
fn values_at(rt: &impl Print, file: &mut [u8], place: usize, rows: &mut [u64]) -> io::Result<u64>
    requires { place < length file.old }
{
    let old = file[place];
    let mut count = 0;
    for value in 0..=255u8 {
        file[place] = value;
        if is_read(rt, file, rows)? {
            count += 1;
        }
    }
    file[place] = old;
    Ok(count)
}

// Each place where more values than one are read, and how many those are.
fn print_changes(rt: &impl Print, file: &mut [u8], rows: &mut [u64]) -> io::Result<()> {
    for place in 0..file.len() {
        let count = values_at(rt, file, place, rows)?;
        if 1 < count {
            println!(rt; "{place} {count}")?;
        }
    }
    Ok(())
}

// The changes of the base.
pub fn change_case(rt: &impl Print, base: &[u8]) -> io::Result<()> {
    let mut file = [0; FILE_ROOM];
    let mut rows = [0; ROWS_ROOM];
    let n = append(&mut file, 0, base);
    print_changes(rt, &mut file[..n], &mut rows)
}
