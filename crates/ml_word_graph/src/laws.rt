// Laws over the definitions alone: no caller runs these functions, their contracts are the theorems.
ghost use Rattle.ml_word_graph.specs.Laws.{AsSatisfiable, GraphsAgree, GraphsAreSmall, NegationIsComplement, OneGraph, SomeGraph};

/// The checking game on the graph of a formula of LTL agrees with the formula's meaning on words: on every finite structure in
/// which each state has exactly one edge by `_`, at every state, in the plain sense and negated.
///
/// Does nothing when called. Source: Vardi and Wolper (1986) for the idea that LTL on one word needs one place for each
/// subformula; the proof goes by the truth values of nodes at states (`proofs/Agreement`).
pub fn agrees()
    ensures { GraphsAgree }
{}

/// The graph of a formula is linear in it: it has at most four nodes for each occurrence and five more, so at most 4,005 for a
/// formula within the limit of 1,000 occurrences.
pub fn graphs_are_small()
    ensures { GraphsAreSmall }
{}

/// To read LTL on single words, or on some path among many, makes no difference to what is satisfiable: a plain problem is
/// satisfiable on words exactly where the plain problem of LTL with the same formula is, and so it is with negated ones.
///
/// Source: the places of a path that satisfies a formula make a word that does.
pub fn satisfiable_alike()
    ensures { AsSatisfiable }
{}

/// On words negation is complement: a negated problem holds at a state exactly where the plain one doesn't.
///
/// Does nothing when called.
pub fn negation_is_complement()
    ensures { NegationIsComplement }
{}

/// A formula has a graph in each sense, and one at most, up to the lists of names.
///
/// Does nothing when called.
pub fn one_graph()
    ensures one { OneGraph }
    ensures some { SomeGraph }
{}
