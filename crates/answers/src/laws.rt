//! What holds of a workspace as a whole, and of all answers. These functions do nothing; their
//! contracts hold of every workspace.
ghost use Rattle.answers.specs.Laws.{AnswersStandAlone, LabelsHaveAnAnswer, MoreHidesNothing};
ghost use Rattle.answers.specs.Laws.{OthersChangeNothing, SourceTextsChangeNothing};
ghost use Rattle.answers.specs.Laws.{TooManyAreCounted};
ghost use Rattle.answers.specs.Laws.{WorkspacesAreCoherent, WorkspacesHaveOneAnswer};

/// All modules and all outcomes of a workspace are coherent together: an id has one tree.
pub fn workspaces_are_coherent()
    ensures { WorkspacesAreCoherent }
{}

/// Legal labels have an answer in each workspace, under each limit of steps. An answer has more
/// labels than a report may have exactly where too many are reached.
pub fn labels_have_an_answer()
    ensures some { LabelsHaveAnAnswer }
    ensures counted { TooManyAreCounted }
{}

/// Labels of a workspace have at most one answer under a limit of steps, in whichever order its
/// files stand, and in whichever order and however often the labels are asked for.
pub fn workspaces_have_one_answer()
    ensures { WorkspacesHaveOneAnswer }
{}

/// What becomes of a label doesn't depend on what else is asked for. And whoever asks for more is
/// hidden no conflict: each path that conflicts still does, and where there was a failure or a
/// conflict there still is one.
pub fn others_change_nothing()
    ensures same { OthersChangeNothing }
    ensures hidden { MoreHidesNothing }
{}

/// An answer tells the files that fail, each label that is asked for, and of each label that it
/// tells all dependencies. From their outcomes that of the label follows, if it isn't cyclic; a
/// cyclic one says so, and no other does. Whatever does all this, with labels that are reached
/// alone and in the order of their texts, is an answer.
pub fn answers_stand_alone()
    ensures { AnswersStandAlone }
{}

/// The texts of source files aren't used, whichever order files stand in.
pub fn source_texts_change_nothing()
    ensures { SourceTextsChangeNothing }
{}
