//! What holds of all requests. These functions do nothing; their contracts hold of every request.
ghost use Rattle.serve.specs.Laws.{AnswersAreNotTooMany, AnswersAreOne, InputsHaveOneAnswer};
ghost use Rattle.serve.specs.Laws.{RequestsForMoreHideNothing, RequestsHaveAnAnswer};
ghost use Rattle.serve.specs.Laws.{RequestsHaveOneAnswer};

/// Words that ask for something and an input that spells a workspace have exactly one answer that a
/// report may tell, or more labels are reached than a report may have, and not both.
pub fn requests_have_an_answer()
    ensures some { RequestsHaveAnAnswer }
    ensures one { AnswersAreOne }
    ensures apart { AnswersAreNotTooMany }
{}

/// Requests that ask for the same labels, in any order and any number of times, under the same
/// limit of steps, of one input or of inputs with the same files in any order, have at most one
/// answer.
pub fn requests_have_one_answer()
    ensures files { RequestsHaveOneAnswer }
    ensures input { InputsHaveOneAnswer }
{}

/// Where two requests have an answer, of which the second asks for more labels of the same files
/// under the same limit of steps, each path that conflicts in the first answer does in the second,
/// which has a failure or a conflict if the first has one.
pub fn requests_for_more_hide_nothing()
    ensures { RequestsForMoreHideNothing }
{}
