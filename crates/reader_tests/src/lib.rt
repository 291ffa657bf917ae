// Tests of the lexer, of the reader at the edges of what is accepted and what is refused, and of the records.
#![tactic(auto)]

#[cfg(test)]
mod answers;
#[cfg(test)]
mod counts;
#[cfg(test)]
mod deciding;
#[cfg(test)]
mod hostile;
#[cfg(test)]
mod recorded;
#[cfg(test)]
mod spelling;
#[cfg(test)]
mod words;
