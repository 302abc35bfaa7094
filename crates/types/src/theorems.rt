// Statements about the definitions that the contracts cite, each the contract of a function that does nothing else.
ghost use Rattle.std.specs.Prelude.{◌≡◌};
ghost use Rattle.types.specs.Abilities.{primitive};
ghost use Rattle.types.specs.Examples.{ExamplesAreJudgedSo, ExamplesMeasureSo};
ghost use Rattle.types.specs.Laws.{BytesTellAbilities, AbilitiesTellBytes, AllowsAsAllowed, TestIsTheRule, StructKeepsItsRule};
ghost use Rattle.types.specs.Laws.{PrimitivesHaveCopyDropStore, StructHasItsAbilities, UnknownHasNone, Module0HasNoStructs};
ghost use Rattle.types.specs.Laws.{PrimitiveIsOneWord, StructIsItsFields, TotalIsTheSum, JoinedIsTheRow, WordsArePrimitive, KnownIs1To16Wide};
ghost use Rattle.types.specs.Laws.{NothingInsideWhatIsNoStruct, InsideStructIsInsideItsFields, StructIsOnceInsideItself, InsideAreDeclaredStructs};
ghost use Rattle.types.specs.Laws.{CopyHoldsNoneWithout, DropHoldsNoneWithout, StoreHoldsNoneWithout, KeyHoldsNoneWithoutStore};
ghost use Rattle.types.specs.Laws.{OlderTypesStay, LawfulGrowthIsNew};
ghost use Rattle.types.specs.Primitives.{bool, num, address, same_type};

use crate::abilities::Abilities;
use crate::primitives::{ADDRESS, BOOL, NUM};
use operands::TypeRef;

pub fn constants_are_as_defined()
    ensures types { (BOOL ≡ bool) × (NUM ≡ num) × (ADDRESS ≡ address) }
    ensures abilities { Abilities.PRIMITIVE ≡ primitive }
{}

pub fn bytes_and_abilities_tell_each_other()
    ensures bytes { BytesTellAbilities }
    ensures abilities { AbilitiesTellBytes }
{}

pub fn tests_say_the_rules()
    ensures abilities { AllowsAsAllowed }
    ensures types { (a b : TypeRef) → ⟦<TypeRef as PartialEq>⟧.eq a b ≡ same_type a b }
    ensures structs { TestIsTheRule }
    ensures later { StructKeepsItsRule }
{}

pub fn examples_stand_so()
    ensures judged { ExamplesAreJudgedSo }
    ensures measured { ExamplesMeasureSo }
{}

pub fn types_have_their_abilities()
    ensures primitives { PrimitivesHaveCopyDropStore }
    ensures structs { StructHasItsAbilities }
    ensures unknown { UnknownHasNone }
    ensures others { Module0HasNoStructs }
{}

pub fn structs_are_their_fields()
    ensures primitives { PrimitiveIsOneWord }
    ensures structs { StructIsItsFields }
    ensures sums { TotalIsTheSum }
    ensures rows { JoinedIsTheRow }
    ensures words { WordsArePrimitive }
    ensures widths { KnownIs1To16Wide }
{}

pub fn insides_are_counted()
    ensures others { NothingInsideWhatIsNoStruct }
    ensures structs { InsideStructIsInsideItsFields }
    ensures once { StructIsOnceInsideItself }
    ensures declared { InsideAreDeclaredStructs }
{}

pub fn abilities_reach_what_is_inside()
    ensures copy { CopyHoldsNoneWithout }
    ensures drop { DropHoldsNoneWithout }
    ensures store { StoreHoldsNoneWithout }
    ensures key { KeyHoldsNoneWithoutStore }
{}

pub fn older_types_stay()
    ensures stay { OlderTypesStay }
    ensures lawful { LawfulGrowthIsNew }
{}
