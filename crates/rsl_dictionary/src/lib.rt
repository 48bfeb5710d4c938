//! The names of attributes and of their values that the programs know, a file for each vendor.
//! `dictionary` gives all. Only the programs stand on this crate, so a new row costs no other crate
//! a proof. Of a vendor's attributes those are left out whose values are encrypted.
//!
//! It promises nothing by a clause: its rows are data. By tests alone
//! (`tests/programs/replies.py`):
//! - each row has the name, the vendor, the Type and the form that FreeRADIUS's dictionaries have;
//! - no attribute of these vendors is missing but those that radlimit-accounts(5) names;
//! - of each row `radlimitd reply` prints what the account file has.
#![tactic(auto)]

mod cisco;
mod erx;
mod huawei;
mod juniper;
mod mikrotik;
mod nokia;
mod standard;
mod tables;
mod wispr;

pub use tables::dictionary;
