//! The rows of the language's description, from words and a text to the status and what is written.
#![tactic(auto)]

#[cfg(test)]
mod asking;
#[cfg(test)]
mod automata;
#[cfg(test)]
mod calling;
#[cfg(test)]
mod completing;
#[cfg(test)]
mod failing;
#[cfg(test)]
mod lines;
#[cfg(test)]
mod made;
#[cfg(test)]
mod registers;
#[cfg(test)]
mod spelling;
