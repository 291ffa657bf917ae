// Tests of the rings and of the first table, at the edges of what is taken and what is refused.
#![tactic(auto)]

#[cfg(test)]
mod made;
#[cfg(test)]
mod operations;
#[cfg(test)]
mod rows;
