//! The digests of texts.

ghost use Rattle.std.specs.Prelude.{◌≡◌, ◌++◌, IfOk, Some, length, map, string_bytes};
ghost use Rattle.hy_rows.specs.Catalogue.{tables_by_file};
ghost use Rattle.hy_files_sums.specs.Sums.{sum_line, sums_text};

use hex::encode;
use hy_files::FileName;
use hy_rows::{TABLES_BY_FILE, Table};
use sha2::{Digest, Sha256};
use std::alloc::{AllocError, Global};

/// A line for each of nine texts: its digest (SHA-256) in hexadecimal digits, two spaces, and the name of its table's file. So
/// `sha256sum -c` tests the files by them.
pub fn sums_of(alloc: Global, texts: &[Vec<u8>]) -> Result<String, AllocError>
    requires { length texts.now ≡ 9 }
    ensures { IfOk result
        (λ sums. string_bytes sums ≡ sums_text tables_by_file (map (λ text. text.items) texts.now)) }
{
    let mut sums = String::new(alloc);
    for (place, table) in TABLES_BY_FILE.iter().enumerate() {
        let line = sum_line(alloc, *table, &texts[place])?;
        sums.push_str(line.as_str())?;
    }
    Ok(sums)
}

/// The line of one text.
fn sum_line(alloc: Global, table: Table, text: &[u8]) -> Result<String, AllocError>
    ensures { IfOk result (λ line. string_bytes line ≡ sum_line table text.now) }
{
    let digits = encode(alloc, Sha256::digest(text))?;
    let name = FileName { table };
    let line = format!(in alloc; "{digits}  {name}\n")?;
    Ok(line)
}
