//! What holds of the rounds of a service, and of one that is started again.

ghost use Rattle.hy_hyper_rounds.specs.Restarts.{AnswerAlike, RestartsAnswerAlike, RestartsHaveTheSame};
ghost use Rattle.hy_hyper_rounds.specs.Rounds.{AnswersOfScripts, RoundsPrintTheSame};

use hy_redo_drains::stops_leave_a_beginning;

/// Does nothing: its contract says that a drain changes no answer. Whatever rounds a service has served, from its first database
/// on all that was said in them may be answered one line behind another, without a drain between them, by just what the rounds
/// printed.
pub fn rounds_print_the_same()
    ensures { RoundsPrintTheSame }
{}

/// Does nothing: its contract says that such answers are those of a script of the same lines, up to the one that ends it.
pub fn answers_are_of_scripts()
    ensures { AnswersOfScripts }
{}

/// Does nothing: its contract says that databases which have kept the same commits, whatever pages and frames have their rows,
/// answer all that is said alike, unless frames or memory lacked for something that was said.
pub fn answers_are_alike()
    ensures { AnswerAlike }
{}

/// Does nothing: its contract says that a service which is stopped between two rounds, where nothing runs, no answer waits and no
/// snapshot is open, and is started again on what the disk has of its log, has kept the same as before.
pub fn restarts_keep_the_same()
    ensures { RestartsHaveTheSame }
{
    stops_leave_a_beginning();
}

/// Does nothing: its contract says that such a service answers as one that ran through: told the same, in whatever rounds, both
/// print the same answers, but for numbers of frames, unless frames or memory lacked.
pub fn restarts_answer_alike()
    ensures { RestartsAnswerAlike }
{
    stops_leave_a_beginning();
}
