//! What small inputs say as batches, worked out by the definitions. The function does nothing: its
//! contract has the cases.

ghost use Rattle.std.specs.Prelude.{◌≡◌, codes, [], ◌∷◌, Ok, Err};
ghost use Rattle.vyrd_batch.specs.Batches.{batch_logs};

/// Inputs with the bytes of their logs, or the log at which they are refused.
#[tactic(auto, unfolding(crate::proofs::Opened::opened_batch))]
pub fn batches()
    ensures no_logs { batch_logs (codes "batch\nend\n") ≡ Ok [] }
    ensures two_logs { batch_logs (codes "batch\nlog 3\nab\nlog 0\nend\n")
        ≡ Ok (codes "ab\n" ∷ [] ∷ []) }
    ensures without_a_line_feed { batch_logs (codes "batch\nlog 2\nablog 1\ncend\n")
        ≡ Ok (codes "ab" ∷ codes "c" ∷ []) }
    ensures too_few_bytes { batch_logs (codes "batch\nlog 99\nend\n") ≡ Err 0 }
    ensures leading_zero { batch_logs (codes "batch\nlog 02\nabend\n") ≡ Err 0 }
    ensures no_bytes { batch_logs [] ≡ Err 0 }
    ensures no_first_line { batch_logs (codes "log 0\nend\n") ≡ Err 0 }
    ensures no_last_line { batch_logs (codes "batch\nlog 0\nend") ≡ Err 1 }
    ensures after_the_last_line { batch_logs (codes "batch\nend\n\n") ≡ Err 0 }
{}
