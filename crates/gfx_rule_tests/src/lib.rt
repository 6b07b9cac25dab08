//! Tests of the rules: each check of the table of calls is broken by one effect after a history that fits, and the tracker
//! answers just its fault; captures without a fault are taken whole; limits are reached, and what is given back makes room.
#![tactic(auto)]

#[cfg(test)]
mod attempt;
#[cfg(test)]
mod case;
#[cfg(test)]
mod entry;
#[cfg(test)]
mod histories;
#[cfg(test)]
mod reading;
#[cfg(test)]
mod recorded;
#[cfg(test)]
mod rules;
#[cfg(test)]
mod runs;
#[cfg(test)]
mod table;
