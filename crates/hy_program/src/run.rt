//! The program, from its words to the way in which it ended.

ghost use Rattle.std.specs.Prelude.{◌≡◌, ◌⊎◌, Bool, IfErr, IsTrue, OnOk};
ghost use Rattle.hy_cli.specs.CommandLine.{AreTaken, HasLimits, texts_of};
ghost use Rattle.hy_cli.specs.declared.words.Line.TheVariants as line;
ghost use Rattle.hy_program.specs.declared.ending.Ending.{Ending};
ghost use Rattle.hy_program.specs.Faults.{Explains, IsBlamedRightly};
ghost use Rattle.hy_program.specs.Runs.{AreRefused, AreUndoneSilently, Completes, HasMade, HaveMade, IsDone, IsFaultOf, KeepsFiles, KeepsFolders, MayMake, MayWrite};

use crate::check::run_check;
use crate::ending::Ending;
use crate::fault::RunFault;
use crate::first::run_first;
use crate::generate::{Size, run_generate};
use crate::query::run_query;
use crate::recover::run_recover;
use crate::script::{Limits, run_script_file};
use crate::serve::{run_serve, terms_of};
use crate::storm::run_storm;
use hy_cli::{Line, LineFault, read_words};
use hy_files::FileSystem;
use hy_output::{Output, Take};
use hy_schema::Refusal;
use hy_storm::Size as StormSize;
use std::alloc::Global;
use std::io::Read;
use std::sync::Wait;
use std::thread::Threads;

/// The program: does what the words after its name say. Files are read and written in `system`. What is found is
/// written to `out`, and why it isn't done to `err`. What `input` gives only a service reads.
pub fn run_words<F, I, O, X, R>(
    rt: &R,
    alloc: Global,
    words: &[&str],
    system: &mut F,
    input: I,
    out: &mut O,
    err: &mut X,
) -> Ending
where
    F: FileSystem,
    I: Read + Drop,
    O: Output + Take + Drop,
    X: Output,
    R: Threads + Wait + Sync,
    ensures files { KeepsFiles (texts_of words.entry.now) (F.files system.old, F.files system.new) }

    ensures folders { KeepsFolders (texts_of words.entry.now) (F.folders system.old, F.folders system.new) }

    ensures done { result ≡ Ending.Done →
        Completes (texts_of words.entry.now) (F.files system.old, F.files system.new) (I.remaining input)
        (O.contents out.old, O.contents out.new) }
    ensures made { result ≡ Ending.Done →
        HaveMade (texts_of words.entry.now) (F.folders system.old, F.folders system.new) }
    ensures done_without_words { result ≡ Ending.Done → err.new ≡ err.old }

    // One reason says what stands on both outputs, and what the files are.
    ensures refused { result ≡ Ending.Refused →
        AreRefused (texts_of words.entry.now) (F.files system.old, F.files system.new)
        (F.unwritten system.old, F.unwritten system.new) (I.remaining input) (O.contents out.old, O.contents out.new)
        (out.new ≡ out.old) (X.contents err.old, X.contents err.new) }

    // The parser's text couldn't be written, or there is such a reason: an output's failure, or one that couldn't be explained.
    ensures writer_failed { result ≡ Ending.WriterFailed →
        ((¬ (AreTaken (texts_of words.entry.now))) × (system.new ≡ system.old) × (out.new ≡ out.old))
        ⊎ AreUndoneSilently (texts_of words.entry.now) (F.files system.old, F.files system.new)
        (F.unwritten system.old, F.unwritten system.new) (I.remaining input) (O.contents out.old, O.contents out.new)
        (out.new ≡ out.old) }

    // A write to one of the two has failed.
    ensures failed { result ≡ Ending.WriterFailed →
        IsTrue (O.has_failed out.new) ⊎ IsTrue (X.has_failed err.new) }

    ensures at_fault { result ≡ Ending.NoLine → ¬ (AreTaken (texts_of words.entry.now)) }
    ensures no_line { result ≡ Ending.NoLine → (system.new ≡ system.old) × (out.new ≡ out.old) }
    ensures untaken { ¬ (AreTaken (texts_of words.entry.now)) →
        (system.new ≡ system.old) × (out.new ≡ out.old) }
{
    match read_words(alloc, words) {
        Ok(line) => match run_line(rt, alloc, line, system, input, out) {
            Ok(()) => Ending::Done,
            Err(fault) => explain(fault, err),
        },
        Err(LineFault::Parser(error)) => match write!(err, "{error}") {
            Ok(()) => Ending::NoLine,
            Err(_) => Ending::WriterFailed,
        },
        Err(LineFault::NoMemory) => explain(RunFault::Refused(Refusal::NoMemory), err),
    }
}

/// Writes the line that says why a command line isn't done.
fn explain<X: Output>(fault: RunFault<'_>, err: &mut X) -> Ending
    ensures refused { result ≡ Ending.Refused →
        Explains fault.entry (X.contents err.old) (X.contents err.new) }
    ensures otherwise { (result ≡ Ending.Refused) ⊎ (result ≡ Ending.WriterFailed) }
    ensures failed { (has_failed : Bool) → IsBlamedRightly has_failed fault.entry → result ≡ Ending.WriterFailed →
        IsTrue has_failed ⊎ IsTrue (X.has_failed err.new) }
{
    let ending = match fault {
        RunFault::Writer(_) => Ending::WriterFailed,
        _ => Ending::Refused,
    };
    match writeln!(err, "{fault}") {
        Ok(()) => ending,
        Err(_) => Ending::WriterFailed,
    }
}

/// Does what a command line says.
fn run_line<'a, F: FileSystem, I: Read + Drop, O: Output + Take + Drop, R: Threads + Wait + Sync>(
    rt: &R,
    alloc: Global,
    line: Line<'a>,
    system: &mut F,
    input: I,
    out: &mut O,
) -> Result<(), RunFault<'a>>
    requires { HasLimits line }
    ensures files { (F.files system.new ≡ F.files system.old)
        ⊎ MayWrite line.entry (F.files system.old, F.files system.new) }
    ensures folders { (F.folders system.new ≡ F.folders system.old)
        ⊎ MayMake line.entry (F.folders system.old, F.folders system.new) }
    ensures made { OnOk result (HasMade line.entry (F.folders system.old, F.folders system.new)) }
    ensures done { OnOk result
        (IsDone line.entry (F.files system.old, F.files system.new) (I.remaining input)
        (O.contents out.old, O.contents out.new)) }
    ensures fault { IfErr result
        (IsFaultOf line.entry (F.files system.old, F.files system.new) (F.unwritten system.old, F.unwritten system.new)
        (I.remaining input) (O.contents out.old, O.contents out.new) (out.new ≡ out.old)) }
    ensures failed { IfErr result (IsBlamedRightly (O.has_failed out.new)) }
{
    match line {
        Line::First { amount } => run_first(alloc, amount, out),
        Line::Generate {
            directory,
            warehouses,
            customers,
            items,
        } => {
            let size = Size {
                warehouses,
                customers,
                items,
            };
            run_generate(alloc, directory, size, system, out)
        }
        Line::Check { directory, log } => run_check(alloc, directory, log, system, out),
        Line::Script {
            directory,
            file,
            frames,
            kept,
        } => {
            let limits = Limits { frames, kept };
            run_script_file(alloc, directory, file, limits, system, out)
        }
        Line::Serve {
            directory,
            log,
            frames,
            kept,
            is_numbered,
        } => {
            let terms = terms_of(frames, kept, is_numbered);
            run_serve(alloc, directory, log, terms, system, input, out)
        }
        Line::Query {
            directory,
            text,
            log,
        } => run_query(rt, alloc, directory, text, log, system, out),
        Line::Storm {
            directory,
            terminals,
            sessions,
            commands,
            log,
        } => {
            let size = StormSize {
                terminals,
                sessions,
                commands,
            };
            run_storm(rt, alloc, directory, size, log, system, out)
        }
        Line::Recover {
            directory,
            log,
            out: into,
        } => run_recover(alloc, directory, log, into, system, out),
    }
}
