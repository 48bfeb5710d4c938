//! Tests of `rld_store`: what each call answers and writes, by values worked by hand; a log that fails
//! at each of its calls; torn ends of each length; each fault of an opening by its name; one generation
//! after another; logs of versions before format 3.
#![tactic(auto)]

#[cfg(test)]
mod calls;
#[cfg(test)]
mod crashes;
#[cfg(test)]
mod faults;
#[cfg(test)]
mod former;
#[cfg(test)]
mod rolls;
#[cfg(test)]
mod server;
