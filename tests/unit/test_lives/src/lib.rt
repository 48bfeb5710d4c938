//! Tests of `rld_lives`: lives over one log that fails at each of its calls, beside one run of the same
//! packets without a crash (`rsl_steps`).
#![tactic(auto)]

#[cfg(test)]
mod lives;
#[cfg(test)]
mod undisturbed;
