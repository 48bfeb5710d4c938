ghost use Rattle.std.specs.Prelude.{◌≡◌, ℕ, ◌<◌, All, IfOk, List, Some, IsSome, length, map};
ghost use Rattle.std.specs.Global.{Vec};
ghost use Rattle.rsl_replay.specs.Report.{rows_after};
ghost use Rattle.rsl_replay.specs.Shards.{AreShardsAfter, row_among, rows_seen};
ghost use Rattle.rsl_shard.specs.declared.row.Row.{Row as OneRow};
ghost use Rattle.rsl_steps.specs.declared.step.Step.{Step};

use rsl_accounts::Config;
use rsl_shard::{Row, Shard};
use rsl_wire::NoMemory;
use std::alloc::Global;

/// The rows of a report on the shards of a run: one for each account, in the order of their
/// numbers. It fails only if memory is refused.
pub(crate) fn rows_of(
    alloc: Global,
    config: &Config,
    shards: &[Shard],
) -> Result<Vec<Row>, NoMemory>
    requires { (boot : ℕ) × (before : List Step) ×
        AreShardsAfter config.now boot before shards.now }
    ensures rows { (boot : ℕ) (before : List Step) →
        AreShardsAfter config.now boot before shards.now →
        IfOk result (λ rows. rows.items ≡
        rows_after config.now boot before 0 config.now.accounts) }
    ensures within { IfOk result (λ rows.
        All (λ row. row.account < length config.now.accounts) rows.items) }
{
    let tables = tables_of(alloc, shards)?;
    let mut rows = Vec::new(alloc);
    for account in 0..config.accounts() {
        rows.push(row_among(config.shards(), tables.as_slice(), account))?;
    }
    Ok(rows)
}

/// The rows of each shard.
fn tables_of(alloc: Global, shards: &[Shard]) -> Result<Vec<Vec<Row>>, NoMemory>
    ensures { IfOk result (λ tables.
        map (λ (table : Vec OneRow). table.items) tables.items ≡ map rows_seen shards.now) }
{
    let mut tables = Vec::new(alloc);
    for shard in shards {
        tables.push(shard.rows(alloc)?)?;
    }
    Ok(tables)
}

/// The row of an account among the rows of each shard, over which accounts are dealt in turn.
#[tactic(auto, using(crate::proofs::ReportLaws::row_steps))]
fn row_among(shards: u32, tables: &[Vec<Row>], account: u32) -> Row
    requires some { 0 < shards }
    requires there { IsSome (row_among shards
        (map (λ (table : Vec OneRow). table.items) tables.now) account) }
    ensures { row_among shards (map (λ (table : Vec OneRow). table.items) tables.now) account ≡
        Some result }
{
    let table = &tables[(account % shards) as usize];
    table[(account / shards) as usize]
}
