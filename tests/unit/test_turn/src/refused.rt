//! The lines of the datagrams that turns refused.

use crate::disk::{shared_config, store_of};
use crate::turns::{port_of, scene_of, served};
use rld_counts::{Board, Gate};
use rld_look::{Refusals, Sink, WatchContext, Watcher};
use std::alloc::Global;
use std::sync::Wait;
use std::test::Fail;
use std::time::Clock;
use test_rows::{Subject, check_rows};

/// The lines of the turns of rows.
#[derive(Clone, Copy)]
struct Lines<'a, R: Wait + Clock> {
    rt: &'a R,
}

impl<R: Wait + Clock> Subject for Lines<'_, R> {
    fn found(&self, alloc: Global, fields: &[&str]) -> Result<String, Fail> {
        let scene = scene_of(fields)?;
        let config = shared_config(alloc)?;
        let mut store = store_of(alloc, &config, scene.disk)?;
        let board = Board::new(alloc, config.clients(), &[Gate::of(port_of(scene.port)?)])?;
        let refusals = Refusals::new(alloc, 1)?;
        let context = WatchContext {
            board: &board,
            refusals: &refusals,
        };
        let Some(mut watcher) = Watcher::new(self.rt, alloc, context, 0)? else {
            return Err("no place")?;
        };
        let mut counts = String::new(alloc);
        served(
            alloc,
            &*config,
            scene,
            &mut store,
            &mut watcher,
            &mut counts,
        )?;
        let mut lines = Vec::new(alloc);
        for refusal in refusals.take(self.rt, alloc).waited {
            refusal.write_line(alloc, &mut lines, Sink::Plain, None)?;
        }
        let lines = String::from_utf8(lines)?;
        let mut text = String::new(alloc);
        for line in lines.as_str().lines() {
            write!(text, "{line}, ")?;
        }
        Ok(String::from_str(alloc, text.trim())?)
    }
}

/// A client is shown by its address, whichever peer of its networks it was; a peer of no client by its own, one
/// of IPv6 as RFC 5952 has it, in brackets before the port.
const LINES: &str = "
a client | auth | 1 | short:1025 | | 5 1 | | refused port=auth client=192.168.1.16:1025 cause=drop_short,
a peer of a network | auth | 1 | short@2001:db8:7::5 short@192.0.2.9 | | 5 1 | \
    | refused port=auth client=192.168.1.16:1024 cause=drop_short, \
    refused port=auth client=192.168.1.16:1024 cause=drop_short,
peers of no client | auth | 1 | ask@2001:db8:8::5 ask@198.51.100.1 ask@::ffff:198.51.100.2 ask@0.0.0.0 | | 5 1 | \
    | refused port=auth client=[2001:db8:8::5]:1024 cause=drop_unknown_client, \
    refused port=auth client=198.51.100.1:1024 cause=drop_unknown_client, \
    refused port=auth client=198.51.100.2:1024 cause=drop_unknown_client, \
    refused port=auth client=0.0.0.0:1024 cause=drop_unknown_client,
one at the accounting port | acct | 1 | start@2001:db8::1 | | 5 1 | \
    | refused port=acct client=[2001:db8::1]:1024 cause=drop_unknown_client,
accounting of nobody | acct | 1 | start stray stop | | 5 1 | \
    | refused port=acct client=192.168.1.16:1024 nas=n account=ghost cause=start_unknown,
";

#[test]
fn refused_peers_have_lines(rt: HostRuntime) -> Result<(), Fail> {
    check_rows(&rt, &Lines { rt: &rt }, LINES)
}
