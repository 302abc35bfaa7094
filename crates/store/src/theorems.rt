// Statements about the definitions that the contracts cite, each the contract of a function that does nothing else.
ghost use Rattle.store.specs.Laws.{PutIsFound, PutAltersItsKeyAlone, RemovedIsGone, RemoveAltersItsKeyAlone, PutCounts, RemoveCounts};

pub fn calls_alter_their_key_alone()
    ensures found { PutIsFound }
    ensures put { PutAltersItsKeyAlone }
    ensures gone { RemovedIsGone }
    ensures remove { RemoveAltersItsKeyAlone }
{}

pub fn calls_count_one_pair()
    ensures put { PutCounts }
    ensures remove { RemoveCounts }
{}
