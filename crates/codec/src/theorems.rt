// Statements about the definitions that the contracts cite, each the contract of a function that does nothing else.
ghost use Rattle.codec.specs.Examples.{ExamplesReadSo};
ghost use Rattle.codec.specs.RoundTrip.{WritingRestoresBytes, ReadingRestoresRecords, ReadingRestoresModules};

pub fn reading_and_writing_are_inverse()
    ensures bytes { WritingRestoresBytes }
    ensures records { ReadingRestoresRecords }
    ensures modules { ReadingRestoresModules }
{}

pub fn examples_read_so()
    ensures { ExamplesReadSo }
{}
