//! A running server over HTTP/1.1: each path has a text, served from one thread. A connection has
//! one request and five seconds in all; there are at most 16 of them, and none waits for another.
//! It promises:
//! - A GET or HEAD of a known path, under the server's own name, gets exactly the text of the path;
//!   any other request gets none of them: 404, 405, or 421 for another name (private:
//!   `PageService::call`: `answers`; `specs/Answer.antt`).
//! - The page is for the address and the port that it is given, and no other (`Web::bind`:
//!   `address`, `port`). The server's name is that address or localhost (private: `is_asked_for`).
//! - A look that is less than a second old stays as it is; any other is taken anew, and only for a
//!   request that needs it (private: `PageService::look_for`; `Wanted::needs_look`).
//! - A page may load and run nothing, and no response may be kept (private: `fill`).
//!
//! That what is sent are the responses is a promise of the kit's `http_server`. By
//! `tests/programs/page.py` alone: how long a connection lasts, and that there are at most 16.
#![tactic(auto)]

mod answer;
mod connections;
mod http_connection;
mod page_service;
mod path;
mod place;
mod wanted;
mod web;

pub use web::Web;
