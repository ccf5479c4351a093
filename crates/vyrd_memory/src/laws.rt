//! Laws of runs, by turns and all at once. Each function does nothing: its contract is the law.

ghost use Rattle.vyrd_memory.specs.LaneRules.{EndedLanesAreClosed, LanesKeepTheRules};
ghost use Rattle.vyrd_memory.specs.LaneRules.{NoneIsOpenAtTheEnd, OnlyRacesBreakRules};
ghost use Rattle.vyrd_memory.specs.Runs.{EndedRunsArentStuck, LoggedCallsFit};
ghost use Rattle.vyrd_memory.specs.Runs.{OnlyRacesAreMalformed, RunsByTurnsAreLegal};
ghost use Rattle.vyrd_memory.specs.Runs.{RunsByTurnsPlayToTheEnd, TurnsHaveOneEnd};

/// A run by turns of sound scripts is a legal history, and each script is played to its end in it.
pub fn run_by_turns_is_legal()
    ensures legal { RunsByTurnsAreLegal }
    ensures played { RunsByTurnsPlayToTheEnd }
{}

/// A caller whose part of a history plays a sound script keeps every rule of shape in the log,
/// except that its writes may race with other callers' blocks; also if the script isn't at its end,
/// and whatever the others do. At its end no execution is open.
pub fn lanes_keep_the_rules()
    ensures kept { LanesKeepTheRules }
    ensures closed { EndedLanesAreClosed }
{}

/// In the log of a legal history in which sound scripts are played to their end, no rule is broken
/// except by a write to a word that another caller's open block has written, and no execution is
/// open at its end. So a verdict names no other rule.
pub fn only_races_are_malformed()
    ensures breaks { OnlyRacesBreakRules }
    ensures closed { NoneIsOpenAtTheEnd }
    ensures named { OnlyRacesAreMalformed }
{}

/// The calls in that log are of the header's subject, with arguments in range.
pub fn logged_calls_fit()
    ensures { LoggedCallsFit }
{}

/// The scripts and the turns alone say how a run by turns ends: with one history, or stuck.
pub fn turns_have_one_end()
    ensures same { TurnsHaveOneEnd }
    ensures ends { EndedRunsArentStuck }
{}
