//! Laws of the class list. Each function does nothing; its contract is the law.
ghost use Rattle.pair_enumeration.specs.Laws.{EachModelHasList, OneClassList};
ghost use Rattle.pair_enumeration.specs.Places.{EachPairHasPlace, EachPairHasOnePlace};

/// Two alternatives that need a question have a place and a flip in the class list.
pub fn each_pair_has_place()
    ensures { EachPairHasPlace }
{}

/// And they have no other place or flip.
pub fn each_pair_has_one_place()
    ensures { EachPairHasOnePlace }
{}

/// Each model has a class list, as long as its number of classes, whether or not there is memory for it.
pub fn each_model_has_list()
    ensures { EachModelHasList }
{}

/// Members and order leave a model one class list.
pub fn one_class_list()
    ensures { OneClassList }
{}
