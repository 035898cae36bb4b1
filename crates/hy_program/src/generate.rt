//! The command `gen`: a generated database as files.

ghost use Rattle.std.specs.Prelude.{◌≡◌, ◌⊎◌, IfErr, IsFalse, OnOk};
ghost use Rattle.hy_tables.specs.Generated.{is_size};
ghost use Rattle.hy_files.specs.Directory.{KeepsOtherFiles, tables};
ghost use Rattle.hy_files.specs.Files.{AddsPath};
ghost use Rattle.hy_program.specs.Faults.{IsBlamedRightly};
ghost use Rattle.hy_program.specs.Generate.{IsGenerateFault, IsGenerated};

use crate::fault::RunFault;
use hy_files::{FileSystem, write_load};
use hy_output::Output;
use hy_tables::generate;
use std::alloc::Global;

/// How large a generated database is.
#[derive(Clone, Copy, Debug, PartialEq, Eq)]
pub struct Size {
    /// How many warehouses there are.
    pub warehouses: u64,
    /// How many customers each district has.
    pub customers: u64,
    /// How many items there are.
    pub items: u64,
}

/// Writes the files of a generated database into a folder, and a line that they are written.
pub fn run_generate<'a, F: FileSystem, O: Output>(
    alloc: Global,
    directory: &'a str,
    size: Size,
    system: &mut F,
    out: &mut O,
) -> Result<(), RunFault<'a>>
    ensures others { KeepsOtherFiles (F.files system.old) (F.files system.new) directory.entry.now tables }
    ensures unwritten { IsFalse (is_size size.warehouses size.customers size.items) →
        F.files system.new ≡ F.files system.old }
    ensures folder { OnOk result (AddsPath (F.folders system.old) (F.folders system.new) directory.entry.now) }
    ensures folders { (F.folders system.new ≡ F.folders system.old)
        ⊎ AddsPath (F.folders system.old) (F.folders system.new) directory.entry.now }
    ensures unmade { IsFalse (is_size size.warehouses size.customers size.items) →
        F.folders system.new ≡ F.folders system.old }
    ensures done { OnOk result
        (IsGenerated directory.entry.now size (F.files system.new) (O.contents out.old) (O.contents out.new)) }
    ensures fault { IfErr result
        (IsGenerateFault directory.entry.now size (F.files system.old, F.files system.new)
        (F.unwritten system.old, F.unwritten system.new) (out.new ≡ out.old)) }
    ensures failed { IfErr result (IsBlamedRightly (O.has_failed out.new)) }
{
    let Size {
        warehouses,
        customers,
        items,
    } = size;
    let load = generate(alloc, warehouses, customers, items)?;
    if let Err(found) = write_load(alloc, system, directory, &load) {
        return Err(RunFault::of_files(directory, found));
    }
    writeln!(out, "wrote 9 tables")?;
    Ok(())
}
