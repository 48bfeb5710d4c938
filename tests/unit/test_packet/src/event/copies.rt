use super::{BOOT, CLIENT, FILE, check_spelled, port_of};
use rsl_account_file::read_config;
use rsl_accounts::Config;
use rsl_event::{Act, Meaning, Nas, Note, prepare};
use rsl_reply::Dictionary;
use std::alloc::Global;
use std::test::Fail;
use test_rows::{Subject, octets_of, shown};

/// CopyRows of what datagrams mean.
#[derive(Drop)]
struct CopyRows {
    config: Config,
}

impl Subject for CopyRows {
    fn found(&self, alloc: Global, fields: &[&str]) -> Result<String, Fail> {
        let [port, datagram] = fields else {
            return Err("a row has a port and a datagram")?;
        };
        let datagram = octets_of(alloc, datagram)?;
        let prepared = prepare(alloc, &self.config, BOOT, port_of(port)?, CLIENT, &datagram)?;
        copied(alloc, &prepared.meaning)
    }
}

/// How a copy of what a meaning holds compares with that.
fn copied(alloc: Global, meaning: &Meaning) -> Result<String, Fail> {
    match meaning {
        Meaning::Own { act, .. } => act_copied(alloc, act),
        Meaning::Restart { nas, .. } => nas_copied(alloc, nas),
        Meaning::Stray(note) => note_copied(alloc, note),
        Meaning::Bare | Meaning::Reject => Err("nothing to copy")?,
    }
}

fn act_copied(alloc: Global, act: &Act) -> Result<String, Fail> {
    let copy = act.try_copy(alloc)?;
    compared(alloc, copy == *act)
}

fn nas_copied(alloc: Global, nas: &Nas) -> Result<String, Fail> {
    let copy = nas.try_copy(alloc)?;
    compared(alloc, copy == *nas)
}

fn note_copied(alloc: Global, note: &Note) -> Result<String, Fail> {
    let copy = note.try_copy(alloc)?;
    compared(alloc, copy == *note)
}

/// `the same` where a copy equals its value.
fn compared(alloc: Global, is_same: bool) -> Result<String, Fail> {
    shown(alloc, if is_same { &"the same" } else { &"another" })
}

#[test]
fn copy_is_equal(rt: HostRuntime) -> Result<(), Fail> {
    let config = read_config(rt.alloc(), &Dictionary::new(rt.alloc()), FILE.as_bytes())?;
    let rows = "
        an ask of an identified access server | auth | \
          0100002f0f403f9473978057bd83d5cb98f4227a01066e656d6f02120dbe708d93d413ce3196e43f782a0a\
          ee20036e | the same
        an ask of an access server with an address | auth | <rfc> | the same
        an ask of an unnamed access server | auth | \
          0100002c0f403f9473978057bd83d5cb98f4227a01066e656d6f02120dbe708d93d413ce3196e43f782a0a\
          ee | the same
        an alive | acct | \
          04000027d16ec3e2c1cc1cd9b6803bd0e9a1099f28060000000120036e01066e656d6f2c047331 | \
          the same
        an alive with a bundle and a class | acct | \
          0400003cf96891fcc68449155031a14581e9486f28060000000120036e01066e656d6f2c04733132036d19\
          1200000000000000010000000000000005 | the same
        an alive with the longest texts | acct | \
          0400031d7f769ccca56d1d5ed8c6fe63f679b15b28060000000120ff 6e*253 01066e656d6f2cff \
          73*253 32ff 6d*253 | the same
        a stop | acct | \
          04000027274623da252c107a5cac2503f6557f5728060000000220036e01066e656d6f2c047331 | \
          the same
        a restart | acct | 0400001d52e8592f94d3ebe088794fd4f6c2a0c028060000000720036e | the same
        a stray | acct | \
          040000287dfce6331a8c2a63d18f66037254f3fc28060000000f20036e010767686f73742c047331 | \
          the same
        an empty stray | acct | 0400001a985ee9191f60a3e19a7ce717b01628c528060000000f | the same
    ";
    check_spelled(&rt, &CopyRows { config }, rows)
}
