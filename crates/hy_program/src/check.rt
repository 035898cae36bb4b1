//! The command `check`: what is found in the files of a load, or in the database behind a log of it.

ghost use Rattle.std.specs.Prelude.{◌≡◌, IfErr, IfOk, None, OnOk, Some, length, string_bytes};
ghost use Rattle.std.specs.Option.{option_copied};
ghost use Rattle.hy_rows.specs.Tables.{of_warehouse};
ghost use Rattle.hy_program.specs.Faults.{IsBlamedRightly};
ghost use Rattle.hy_program.specs.Check.{IsCheckFault, IsChecked, line_of, report, warehouse_line};

use crate::fault::RunFault;
use crate::reading::read_all;
use crate::replay::{GREATEST, recovered_from};
use hy_files::{FileSystem, read_load};
use hy_output::Output;
use hy_rows::{Tables, Warehouse};
use std::alloc::{AllocError, Global};

/// Tests the load in the files of a folder, and writes a line for each warehouse and one for the consistency
/// conditions; where a log is named, those of the database behind it.
pub fn run_check<'a, F: FileSystem, O: Output>(
    alloc: Global,
    directory: &'a str,
    log: Option<&'a str>,
    system: &mut F,
    out: &mut O,
) -> Result<(), RunFault<'a>>
    ensures files { F.files system.new ≡ F.files system.old }
    ensures folders { F.folders system.new ≡ F.folders system.old }
    ensures done { OnOk result (IsChecked directory.entry.now (option_copied log.entry) (F.files system.old)
        (O.contents out.old) (O.contents out.new)) }
    ensures fault { IfErr result
        (IsCheckFault directory.entry.now (option_copied log.entry) (F.files system.old) (out.new ≡ out.old)) }
    ensures failed { IfErr result (IsBlamedRightly (O.has_failed out.new)) }
{
    match log {
        Some(path) => check_behind(alloc, directory, path, system, out),
        None => check_load(alloc, directory, system, out),
    }
}

/// The same without a log.
fn check_load<'a, F: FileSystem, O: Output>(
    alloc: Global,
    directory: &'a str,
    system: &mut F,
    out: &mut O,
) -> Result<(), RunFault<'a>>
    ensures files { F.files system.new ≡ F.files system.old }
    ensures folders { F.folders system.new ≡ F.folders system.old }
    ensures done { OnOk result
        (IsChecked directory.entry.now None (F.files system.old) (O.contents out.old) (O.contents out.new)) }
    ensures fault { IfErr result
        (IsCheckFault directory.entry.now None (F.files system.old) (out.new ≡ out.old)) }
    ensures failed { IfErr result (IsBlamedRightly (O.has_failed out.new)) }
{
    let load = match read_load(alloc, system, directory) {
        Ok(load) => load,
        Err(found) => return Err(RunFault::of_files(directory, found)),
    };
    let text = report(alloc, &load.lists().tables)?;
    out.write_all(text.as_bytes())?;
    Ok(())
}

/// The same behind a log.
fn check_behind<'a, F: FileSystem, O: Output>(
    alloc: Global,
    directory: &'a str,
    log: &'a str,
    system: &mut F,
    out: &mut O,
) -> Result<(), RunFault<'a>>
    ensures files { F.files system.new ≡ F.files system.old }
    ensures folders { F.folders system.new ≡ F.folders system.old }
    ensures done { OnOk result (IsChecked directory.entry.now (Some log.entry.now) (F.files system.old)
        (O.contents out.old) (O.contents out.new)) }
    ensures fault { IfErr result
        (IsCheckFault directory.entry.now (Some log.entry.now) (F.files system.old) (out.new ≡ out.old)) }
    ensures failed { IfErr result (IsBlamedRightly (O.has_failed out.new)) }
{
    let (load, bytes) = read_all(alloc, directory, log, system)?;
    let recovered = recovered_from(alloc, &load, &bytes, GREATEST)?;
    let lines = report(alloc, &recovered.tables)?;
    out.write_all(lines.as_bytes())?;
    Ok(())
}

/// What `check` prints of the rows of a load, or of those behind a log.
pub(crate) fn report(alloc: Global, tables: &Tables) -> Result<String, AllocError>
    ensures { IfOk result (λ text. string_bytes text ≡ report tables.now) }
{
    let mut text = String::new(alloc);
    for warehouse in &tables.warehouses {
        let line = line_of(alloc, tables, warehouse)?;
        text.push_str(line.as_str())?;
    }
    text.push_str("conditions 1 2 3 4 5 6 7 8 9 10 12 hold\n")?;
    Ok(text)
}

/// The line of a warehouse of these tables.
fn line_of(alloc: Global, tables: &Tables, warehouse: &Warehouse) -> Result<String, AllocError>
    ensures { IfOk result (λ text. string_bytes text ≡ line_of tables.now warehouse.now) }
{
    let undelivered = undelivered_orders(tables, warehouse.id);
    warehouse_line(alloc, warehouse.id, warehouse.ytd, undelivered)
}

/// The line of a warehouse with this W_YTD and so many undelivered orders.
fn warehouse_line(
    alloc: Global,
    number: u8,
    ytd: i64,
    undelivered: usize,
) -> Result<String, AllocError>
    ensures { IfOk result (λ text. string_bytes text ≡ warehouse_line number ytd undelivered) }
{
    let line = format!(in alloc; "warehouse {number} ytd {ytd} open {undelivered}\n")?;
    Ok(line)
}

/// How many orders of a warehouse aren't delivered.
fn undelivered_orders(tables: &Tables, warehouse: u8) -> usize
    ensures { result ≡ length (of_warehouse warehouse tables.now).new_orders }
{
    tables
        .new_orders
        .iter()
        .filter(|row| row.warehouse == warehouse)
        .count()
}
