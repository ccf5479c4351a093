//! The words that were compared last.

ghost use Rattle.std.specs.Prelude.{◌≡◌, ◌<◌, length, All};
ghost use Rattle.vyrd_view.specs.Comparing.{AgreeElsewhere};

/// Takes over the words that have changed.
pub(crate) fn copy_changed(before: &mut [u64], words: &[u64], changed: &[u32])
    requires count { length before.old ≡ length words.now }
    requires within { All (λ w. w < length words.now) changed.now }
    requires elsewhere { AgreeElsewhere before.old words.now changed.now }
    ensures { before.new ≡ words.now }
{
    for word in changed {
        let word = *word as usize;
        before[word] = words[word];
    }
}
