//! Laws of what a judge keeps. Each function does nothing: its contract is the law.

ghost use Rattle.std.specs.Prelude.{◌≡◌, List, None};
ghost use Rattle.vyrd_base.specs.declared.log.Entry.{Entry};
ghost use Rattle.vyrd_base.specs.declared.log.StartWord.{StartWord};
ghost use Rattle.vyrd_judge.specs.Following.{JudgeView, HasFollowed};
ghost use Rattle.vyrd_judge.specs.LittleKept.{KeepsLittle};

/// What a judge keeps at most while no verdict stands. No more entries wait to be judged than the
/// log has from the first commit on whose execution hasn't returned: if each execution that has
/// committed has returned, none does. For the commits that wait no more writes are kept than take
/// effect behind the last commit before that one. The open blocks keep no more writes than they
/// have made. Of answers two at most are kept for each that an observer has which is open before
/// that first commit: one for the state at its call, and one for each commit since. And the words
/// are as many as the header says.
///
/// What isn't seen of a judge isn't in the law. Its tables have a row for each caller, and of the
/// words that have changed since they were compared fewer than 1,024 are noted, until the writes of
/// a commit that is judged come on top and all of them are compared.
pub fn little_is_kept()
    ensures { (j : JudgeView) (starting : List StartWord) (log : List Entry)
        → HasFollowed j starting log → j.so_far ≡ None → KeepsLittle j log }
{}
