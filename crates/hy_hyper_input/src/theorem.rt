//! What an input says.

ghost use Rattle.hy_hyper_input.specs.Received.{HearsOn, SaysItsLines};

/// Does nothing: its contract says that what is told of an input, whatever pieces its bytes come in, is what their lines say,
/// each once, in their order and by its number.
pub fn input_says_its_lines()
    ensures { SaysItsLines }
{}

/// Does nothing: its contract says the same of whole stretches, in which lines are taken and bytes come: one begins where nothing
/// has come, and what is told in one and in the next is what is told in both.
pub fn input_says_more_and_more()
    ensures { HearsOn }
{}
