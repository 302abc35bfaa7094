// Statements about the definitions that the contracts cite, each the contract of a function that does nothing else.
ghost use Rattle.modules.specs.Bounds.{ReadableModulesAreBounded, ModuleNumbersFit};
ghost use Rattle.modules.specs.Examples.{SevenSaysSo};

// A module that can be read has as many of each part as the order of records allows, and every place is inside its bytes.
pub fn readable_modules_are_bounded()
    ensures bounded { ReadableModulesAreBounded }
    ensures numbers { ModuleNumbersFit }
{}

pub fn seven_says_so()
    ensures { SevenSaysSo }
{}
