//! The dictionary of all tables.

use crate::{cisco, erx, huawei, juniper, mikrotik, nokia, standard, wispr};
use rsl_reply::Dictionary;
use rsl_wire::NoMemory;
use std::alloc::Global;

/// The dictionary of the programs: of several names of one attribute, or of one value, the first of a table
/// is the one that is printed. It fails only where memory is refused.
pub fn dictionary(alloc: Global) -> Result<Dictionary, NoMemory> {
    let mut names = Dictionary::new(alloc);
    add_standard(&mut names)?;
    add_mikrotik(&mut names)?;
    add_cisco(&mut names)?;
    add_juniper(&mut names)?;
    add_erx(&mut names)?;
    add_huawei(&mut names)?;
    add_wispr(&mut names)?;
    add_nokia(&mut names)?;
    Ok(names)
}

/// Adds the rows of `standard`.
fn add_standard(names: &mut Dictionary) -> Result<(), NoMemory> {
    names.add(&standard::ATTRIBUTES, &standard::VALUES)
}

/// Adds the rows of `mikrotik`.
fn add_mikrotik(names: &mut Dictionary) -> Result<(), NoMemory> {
    names.add(&mikrotik::ATTRIBUTES, &mikrotik::VALUES)
}

/// Adds the rows of `cisco`.
fn add_cisco(names: &mut Dictionary) -> Result<(), NoMemory> {
    names.add(&cisco::ATTRIBUTES, &cisco::VALUES)
}

/// Adds the rows of `juniper`.
fn add_juniper(names: &mut Dictionary) -> Result<(), NoMemory> {
    names.add(&juniper::ATTRIBUTES, &juniper::VALUES)
}

/// Adds the rows of `erx`.
fn add_erx(names: &mut Dictionary) -> Result<(), NoMemory> {
    names.add(&erx::ATTRIBUTES, &erx::VALUES)
}

/// Adds the rows of `huawei`.
fn add_huawei(names: &mut Dictionary) -> Result<(), NoMemory> {
    names.add(&huawei::ATTRIBUTES, &huawei::VALUES)
}

/// Adds the rows of `wispr`.
fn add_wispr(names: &mut Dictionary) -> Result<(), NoMemory> {
    names.add(&wispr::ATTRIBUTES, &[])
}

/// Adds the rows of `nokia`.
fn add_nokia(names: &mut Dictionary) -> Result<(), NoMemory> {
    names.add(&nokia::ATTRIBUTES, &nokia::VALUES)
}
