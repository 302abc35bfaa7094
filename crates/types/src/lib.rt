// Types, their abilities and widths, and how many values of one are inside another.
#![tactic(auto)]

mod abilities;
mod primitives;
mod theorems;

pub use abilities::Abilities;
pub use primitives::{ADDRESS, BOOL, NUM, is_primitive};
pub use theorems::{
    abilities_reach_what_is_inside, bytes_and_abilities_tell_each_other, constants_are_as_defined,
    examples_stand_so, insides_are_counted, older_types_stay, structs_are_their_fields,
    tests_say_the_rules, types_have_their_abilities,
};
