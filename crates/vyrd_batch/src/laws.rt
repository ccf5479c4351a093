//! Laws about what the bytes of a batch say. Each function is empty: its contract is the law.

ghost use Rattle.std.specs.Prelude.{◌≡◌, ◌≤◌, ◌++◌, ℕ, List, length, Ok, Err};
ghost use Rattle.vyrd_batch.specs.Batches.{batch_reading, batch_logs, batch_of, FitBatch};
ghost use Rattle.vyrd_batch.specs.LongBatches.{longest_batch_input};

/// Its first `longest_batch_input` bytes settle what an input says as a batch, whatever follows.
pub fn long_inputs_are_settled()
    ensures { (bytes more : List ℕ) → longest_batch_input ≤ length bytes
        → batch_reading (bytes ++ more) ≡ batch_reading bytes }
{}

/// An input of that length isn't a batch.
pub fn long_inputs_are_refused()
    ensures { (bytes : List ℕ) → longest_batch_input ≤ length bytes
        → (log : ℕ) × (batch_reading bytes ≡ Err log) }
{}

/// What is read as a batch is the text of its logs.
pub fn read_batch_is_a_text()
    ensures { (bytes : List ℕ) (logs : List (List ℕ)) → batch_logs bytes ≡ Ok logs
        → bytes ≡ batch_of logs }
{}

/// The text of a batch of logs within the limits is read as these logs.
pub fn text_is_read()
    ensures { (logs : List (List ℕ)) → FitBatch logs → batch_logs (batch_of logs) ≡ Ok logs }
{}
