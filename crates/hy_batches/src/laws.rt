//! What holds of all logs.

ghost use Rattle.std.specs.Prelude.{◌≡◌, ◌⊎◌, ℕ, IsTrue, List, [], Result};
ghost use Rattle.hy_page.specs.Bytes.{AreBytes};
ghost use Rattle.hy_schema.specs.declared.refusal.Refusal.{Refusal};
ghost use Rattle.hy_batches.specs.Batches.{Batch};
ghost use Rattle.hy_batches.specs.Encoding.{log_bytes};
ghost use Rattle.hy_batches.specs.Grammar.{are_batches};
ghost use Rattle.hy_batches.specs.Logs.{BeginsLog, IsDecided, IsFaultyAt, IsLog, Reads};

use hy_schema::Refusal;

/// The bytes of batches are a log of these batches, with nothing left; and where bytes are a log, reading gives its
/// batches, or memory lacks. So what is written is read.
pub fn written_is_read()
    ensures log { (batches : List Batch) → IsTrue (are_batches batches)
        → IsLog (log_bytes batches) batches [] }
    ensures read { (bytes : List ℕ) (batches : List Batch) (rest : List ℕ)
        (read : Result (List Batch) Refusal) → IsLog bytes batches rest → Reads bytes read
        → (read ≡ Ok batches) ⊎ (read ≡ Err Refusal.NoMemory) }
{}

/// All bytes are a log, or they fail at a place; not both; and there is one list of batches, or one place.
pub fn readings_are_one()
    ensures decided { (bytes : List ℕ) → AreBytes bytes → IsDecided bytes }
    ensures log { (bytes : List ℕ) (batches others : List Batch) (rest left : List ℕ)
        → IsLog bytes batches rest → IsLog bytes others left → (batches ≡ others) × (rest ≡ left) }
    ensures fault { (bytes : List ℕ) (place other : ℕ) → IsFaultyAt bytes place → IsFaultyAt bytes other
        → place ≡ other }
    ensures apart { (bytes : List ℕ) (batches : List Batch) (rest : List ℕ) (place : ℕ)
        → IsLog bytes batches rest → IsFaultyAt bytes place → ⊥ }
{}

/// However a log is cut, what is left is a log of all the batches that are whole in it.
pub fn beginnings_are_logs()
    ensures { (batches : List Batch) (size : ℕ) → IsTrue (are_batches batches)
        → BeginsLog batches size }
{}
