// What holds of documents by their definitions alone: the functions do nothing, their contracts are the theorems.
ghost use Rattle.ml_model_check.specs.Laws.{DocumentsReadBack, OneCheck, SomeCheck};

/// Checking a text finds exactly one of six things: it shows a structure at whose start its problem holds, or one at whose
/// start it doesn't, or, where the logic speaks of no such structure, one with a deadlock or one with a state from which not
/// exactly one edge leads, or a problem whose closure is too large, or it has a first bad line. So `check_document` answers
/// each exactly where it is said to come, but for want of memory.
pub fn one_check()
    ensures some { SomeCheck }
    ensures once { OneCheck }
{}

/// What is written for a well-formed formula, with a structure in order and a start, is read back as these, in either
/// version.
pub fn documents_are_read_back()
    ensures { DocumentsReadBack }
{}
