// Tables, stores and drafts against answers that were worked out by hand.
#![tactic(auto)]

#[cfg(test)]
mod directories;
#[cfg(test)]
mod drafts;
#[cfg(test)]
mod merges;
#[cfg(test)]
mod parts;
#[cfg(test)]
mod table_stores;
