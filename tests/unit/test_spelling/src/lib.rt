//! Tests of `rld_spelling`: worked rows of octets, random moves and books there and
//! back, books that lived put back, and snapshots and tables of which an octet is changed. Octets of rows are written by hand from the
//! tables of docs/FOLDER.md.
#![tactic(auto)]

#[cfg(test)]
mod books;
#[cfg(test)]
mod changed;
#[cfg(test)]
mod draw;
#[cfg(test)]
mod lengths;
#[cfg(test)]
mod lived;
#[cfg(test)]
mod moves;
#[cfg(test)]
mod tables;
#[cfg(test)]
mod written;
