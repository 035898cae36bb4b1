//! The kit of a script, and a script over a kit.

ghost use Rattle.std.specs.Prelude.{◌≡◌, ℕ, ◌+◌, ◌≤◌, IfErr, IfOk, IsTrue, None, OnOk, length};
ghost use Rattle.hy_schema.specs.declared.refusal.Refusal.{Refusal};
ghost use Rattle.hy_frames.specs.FrameTable.{IsPageSize, max_frames as most_frames};
ghost use Rattle.hy_session.specs.of_partition.Limits.{most_kept};
ghost use Rattle.hy_script.specs.Ends.{IsScriptFault};
ghost use Rattle.hy_script.specs.Scripts.{IsPrinted};

use crate::database::Database;
use crate::script::{ScriptFault, run_buffered};
use hy_commands::Commit;
use hy_loads::Load;
use hy_output::{Output, Take};
use hy_passes::{Kit, make};
use hy_schema::Refusal;
use hy_session::hy_partition::Loaded;
use std::alloc::Global;

/// The name of a script's kit, which has no other beside it.
const KIT_NAME: u64 = 1;

/// A kit for the warehouses of a load: with a client for each of them, and one more.
pub fn kit_for(alloc: Global, load: &Load) -> Result<Kit<Commit>, Refusal>
    ensures partitions { IfOk result (λ kit. kit.partitions ≡ length load.now.tables.warehouses) }
    ensures clients { IfOk result (λ kit. kit.clients ≡ length load.now.tables.warehouses + 1) }
    ensures refused { IfErr result (λ refusal. refusal ≡ Refusal.NoMemory) }
{
    load.sound();
    let count = load.tables().warehouses.len();
    Ok(make(alloc, count as u8, count as u32 + 1, KIT_NAME)?)
}

/// Runs scripts on pages of one size. A call that says which kit it has can't say how large pages are, so it takes one of
/// these.
pub trait Paged {
    ghost page_size: { ℕ };

    /// Runs a script over a kit, on partitions that are made with its seats. The last of its clients takes the snapshots,
    /// and each other one has a warehouse.
    fn run<K: Loaded, O: Output + Take + Drop>(
        alloc: Global,
        load: &Load,
        kit: Kit<Commit>,
        script: &[u8],
        max_frames: u64,
        max_kept: u64,
        out: &mut O,
    ) -> Result<(), ScriptFault>
        requires size { IsPageSize page_size }
        requires some_frames { 1 ≤ max_frames }
        requires frames { max_frames ≤ most_frames }
        requires some_kept { 1 ≤ max_kept }
        requires kept { max_kept ≤ most_kept }
        requires kit { kit ≡ K.passes }
        requires load { load.now ≡ K.load }
        requires partitions { kit.partitions ≡ length load.now.tables.warehouses }
        requires clients { kit.clients ≡ length load.now.tables.warehouses + 1 }
        ensures done { OnOk result
            (IsPrinted page_size load.now max_frames max_kept script.now (O.contents out.old) (O.contents out.new) None) }
        ensures fault { IfErr result
            (IsScriptFault page_size load.now max_frames max_kept script.now (O.contents out.old) (O.contents out.new)
            (out.new ≡ out.old) (IsTrue (O.has_failed out.new))) };
}

/// Pages of `N` bytes.
pub struct Pages<const N: usize>;

impl<const N: usize> Paged for Pages<N> {
    ghost page_size = { N };

    fn run<K: Loaded, O: Output + Take + Drop>(
        alloc: Global,
        load: &Load,
        kit: Kit<Commit>,
        script: &[u8],
        max_frames: u64,
        max_kept: u64,
        out: &mut O,
    ) -> Result<(), ScriptFault> {
        let Ok((_passes, journal, seats, passes)) = kit.open::<K>() else {
            return Err(ScriptFault::Refused(Refusal::NoMemory));
        };
        let mut database = Database::<N, K>::new(
            alloc, load, journal, seats, passes, max_frames, max_kept,
        )?;
        let ended = run_buffered(alloc, &mut database, script, out);
        database.end();
        ended
    }
}

/// Runs a script over a kit, on pages of a size.
pub fn run_over<K: Loaded, P: Paged, O: Output + Take + Drop>(
    alloc: Global,
    load: &Load,
    kit: Kit<Commit>,
    script: &[u8],
    max_frames: u64,
    max_kept: u64,
    out: &mut O,
) -> Result<(), ScriptFault>
    requires size { IsPageSize P.page_size }
    requires some_frames { 1 ≤ max_frames }
    requires frames { max_frames ≤ most_frames }
    requires some_kept { 1 ≤ max_kept }
    requires kept { max_kept ≤ most_kept }
    requires kit { kit ≡ K.passes }
    requires load { load.now ≡ K.load }
    requires partitions { kit.partitions ≡ length load.now.tables.warehouses }
    requires clients { kit.clients ≡ length load.now.tables.warehouses + 1 }
    ensures done { OnOk result
        (IsPrinted P.page_size load.now max_frames max_kept script.now (O.contents out.old) (O.contents out.new) None) }
    ensures fault { IfErr result
        (IsScriptFault P.page_size load.now max_frames max_kept script.now (O.contents out.old) (O.contents out.new)
        (out.new ≡ out.old) (IsTrue (O.has_failed out.new))) }
{
    P::run::<K, O>(alloc, load, kit, script, max_frames, max_kept, out)
}
