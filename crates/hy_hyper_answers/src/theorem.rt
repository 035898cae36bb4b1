//! What holds of all answers.

ghost use Rattle.hy_hyper_answers.specs.Served.{ServeOneMore};

/// Does nothing: its contract says that what was held for all that an input said so far, and behind it the answer to what it says
/// next, is what is held for both.
pub fn answers_follow_one_another()
    ensures { ServeOneMore }
{}
