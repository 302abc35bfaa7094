// Statements about the definitions that the contracts cite, each the contract of a function that does nothing else.
ghost use Rattle.draft.specs.Laws.{ChangesHideWhatIsBelow, EmptiedKeyTakesWords};

pub fn drafts_hide_what_they_touch()
    ensures hidden { ChangesHideWhatIsBelow }
    ensures emptied { EmptiedKeyTakesWords }
{}
