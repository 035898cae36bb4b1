//! Nine CSV texts are a database where each row is right and the consistency conditions of TPC-C hold; else the first
//! fault is named.
#![tactic(auto)]

use hy_schema::Refusal;
use hy_tables::{generate, load, save};
use std::alloc::Global;
use std::process::ExitCode;

/// Texts of WAREHOUSE: the generated one, one that has taken a cent more than its districts, and one with a name that
/// is too long.
const TEXTS: [&str; 3] = [
    "W_ID,W_NAME,W_TAX,W_YTD\n1,W1,500,30000\n",
    "W_ID,W_NAME,W_TAX,W_YTD\n1,W1,500,30001\n",
    "W_ID,W_NAME,W_TAX,W_YTD\n1,WAREHOUSE 1,500,30000\n",
];

fn main(rt: HostRuntime) -> ExitCode {
    match generated_texts(rt.alloc()) {
        Ok(texts) => {
            for warehouses in &TEXTS {
                let _ = match load_with(rt.alloc(), warehouses.as_bytes(), &texts) {
                    Ok(rows) => println!(rt; "a load of {rows} customers"),
                    Err(refusal) => println!(rt; "refused {refusal}"),
                };
            }
            ExitCode::from(0)
        }
        Err(refusal) => {
            let _ = println!(rt; "refused {refusal}");
            ExitCode::from(1)
        }
    }
}

/// The nine texts of one warehouse with three customers in each of its ten districts, and 20 items.
fn generated_texts(alloc: Global) -> Result<[Vec<u8>; 9], Refusal> {
    let texts = save(alloc, &generate(alloc, 1, 3, 20)?)?;
    Ok(texts)
}

/// How many customers the load has that these texts say, with another text of WAREHOUSE in the place of theirs.
fn load_with(alloc: Global, warehouses: &[u8], texts: &[Vec<u8>; 9]) -> Result<usize, Refusal> {
    let loaded = load(
        alloc,
        &[
            warehouses, &texts[1], &texts[2], &texts[3], &texts[4], &texts[5], &texts[6],
            &texts[7], &texts[8],
        ],
    )?;
    Ok(loaded.tables().customers.len())
}
