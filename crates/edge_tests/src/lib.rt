//! Tables of inputs at the edges, with answers that were worked out by hand. All of it is tests: they stand in a crate
//! of their own, since a crate with tests is proved twice.

#![tactic(auto)]

#[cfg(test)]
mod damages;
#[cfg(test)]
mod graph_books;
#[cfg(test)]
mod graph_words;
#[cfg(test)]
mod house_books;
#[cfg(test)]
mod limits;
#[cfg(test)]
mod policies;
#[cfg(test)]
mod refused;
#[cfg(test)]
mod seeks;
#[cfg(test)]
mod strings;
