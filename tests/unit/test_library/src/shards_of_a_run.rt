//! Tests of the shards of a run: how many moves each has made. Rows are heads and steps as those of
//! `steps`.

use crate::steps::{BOOT, config_and_steps};
use rsl_shard::Shard;
use rsl_steps::run;
use std::alloc::Global;
use std::test::Fail;
use test_rows::{Subject, check_rows, push_printed};

/// A head and steps: the moves of each shard after a run of them.
struct Moved;

impl Subject for Moved {
    fn found(&self, alloc: Global, fields: &[&str]) -> Result<String, Fail> {
        let [head, steps] = fields else {
            return Err("a head and steps")?;
        };
        let (config, steps) = config_and_steps(alloc, head, steps)?;
        moves_of(alloc, &run(alloc, &config, BOOT, &steps)?.shards)
    }
}

fn moves_of(alloc: Global, shards: &[Shard]) -> Result<String, Fail> {
    let mut text = String::new(alloc);
    for shard in shards {
        push_printed(&mut text, &shard.moves())?;
    }
    Ok(text)
}

#[test]
fn shards_make_their_own_moves(rt: HostRuntime) -> Result<(), Fail> {
    check_rows(
        &rt,
        &Moved,
        "
no step | set shards 3/client C xyzzy5461/account a pw 1/account b pw 1/ | | 0 0 0
one shard has every move | client C xyzzy5461/account a pw 1/account b pw 1/ \
    | ask 0 C n a pw 1/ask 0 C n b pw 1/stop 1 C n a s/tick 2 | 4
each account moves its shard | set shards 3/client C xyzzy5461/account a pw 1/account b pw 1/ \
    | ask 0 C n a pw 1/ask 0 C n b pw 1/stop 1 C n a s/tick 2 | 3 2 1
a repeat is a move | client C xyzzy5461/account a pw 1/account b pw 1/ \
    | ask 0 C n a pw 1/ask 0 C n a pw 1 | 2
a restart sweeps each shard, and its datagram moves none \
    | set shards 3/client C xyzzy5461/account a pw 1/account b pw 1/ | on 1 C n | 1 1 1
a restart over one shard | client C xyzzy5461/account a pw 1/account b pw 1/ | off 1 C n | 1
a stray is noted in shard 0 | set shards 3/client C xyzzy5461/account a pw 1/account b pw 1/ \
    | start 2 C n ghost s/stop 2 C n ghost s | 2 0 0
sweeps of a shard each | set shards 3/client C xyzzy5461/account a pw 1/account b pw 1/ \
    | ask 0 C n b pw 1/sweep 0 0 n/ask 0 C n b pw 2/sweep 1 0 n/ask 0 C n b pw 3 | 1 4 0
shards that are not there | set shards 2/client C xyzzy5461/account a pw 1/account b pw 1/ \
    | sweep 2 0 n/time 4294967295 0/time 1 0 | 0 1
drops and rejects | client C xyzzy5461/account a pw 1/account b pw 1/ \
    | raw-auth 0 C 00/ask 0 10.0.0.9 n a pw 1/ask 0 C n a no 1 | 0
",
    )
}
