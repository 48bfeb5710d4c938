//! The words of a move.

ghost use Rattle.std.specs.Prelude.{◌≡◌, ◌++◌, ◌∷◌, ◌<◌, [], OnOk, codes, length};
ghost use Rattle.std.specs.Fmt.{decimal};
ghost use Rattle.rld_lines.specs.Lines.{
  account_word,
  act_text,
  ask_text,
  authenticator_word,
  delay_word,
  key_words,
  move_text,
  session_words,
  name_words,
  nas_words,
  note_words,
  source_word,
  word,
  word_if,
};
ghost use Rattle.rld_values.specs.Values.{dotted, escaped, hex};
ghost use Rattle.rld_spelling.specs.Moves.{MoveFits, OwnFits};
ghost use Rattle.rld_store.specs.Generations.{counts_of};

use rld_values::{push_decimal, push_dotted, push_escaped, push_hex};
use rsl_accounts::Config;
use rsl_event::{Act, Key, Nas, NasName, Note, Source};
use rsl_shard::Move;
use rsl_wire::Octets;
use std::alloc::AllocError;

/// Writes a space, a key and `=`.
fn push_key(out: &mut Vec<u8>, key: &str) -> Result<(), AllocError>
    ensures { OnOk result (out.new.items ≡ out.old.items ++ word key.now []) }
{
    out.push(32)?;
    out.extend_from_slice(key.as_bytes())?;
    out.push(61)?;
    Ok(())
}

/// Writes a word whose value is a number.
fn push_number_word(out: &mut Vec<u8>, key: &str, number: u64) -> Result<(), AllocError>
    ensures { OnOk result (out.new.items ≡ out.old.items ++ word key.now (decimal number)) }
{
    push_key(out, key)?;
    push_decimal(out, number)
}

/// Writes a word whose value is octets.
fn push_octets_word(out: &mut Vec<u8>, key: &str, octets: &[u8]) -> Result<(), AllocError>
    ensures { OnOk result (out.new.items ≡ out.old.items ++ word key.now (escaped octets.now)) }
{
    push_key(out, key)?;
    push_escaped(out, octets)
}

/// Writes a word whose value is hexadecimal digits.
fn push_hex_word(out: &mut Vec<u8>, key: &str, octets: &[u8]) -> Result<(), AllocError>
    ensures { OnOk result (out.new.items ≡ out.old.items ++ word key.now (hex octets.now)) }
{
    push_key(out, key)?;
    push_hex(out, octets)
}

/// Writes the name of an access server.
fn push_name(out: &mut Vec<u8>, name: &NasName) -> Result<(), AllocError>
    ensures { OnOk result (out.new.items ≡ out.old.items ++ name_words name.now) }
{
    match name {
        NasName::Identifier(name) => push_octets_word(out, "nas", name.as_slice()),
        NasName::Address(address) => push_hex_word(out, "nas-address", address.as_slice()),
        NasName::Unnamed => Ok(()),
    }
}

/// Writes the words of an access server.
fn push_nas(out: &mut Vec<u8>, config: &Config, nas: &Nas) -> Result<(), AllocError>
    requires { nas.now.client < length config.now.clients }
    ensures { OnOk result (out.new.items ≡ out.old.items ++ nas_words config.now nas.now) }
{
    push_key(out, "client")?;
    push_dotted(out, config.client_at(nas.client).address)?;
    push_name(out, &nas.name)
}

/// Writes the word of the source of a request.
#[tactic(auto, unfolding(crate::specs::Lines::source_word))]
fn push_source(out: &mut Vec<u8>, source: Source) -> Result<(), AllocError>
    ensures { OnOk result (out.new.items ≡ out.old.items ++ source_word source) }
{
    push_key(out, "source")?;
    push_dotted(out, source.address)?;
    out.push(58)?;
    push_decimal(out, u64::from(source.port))
}

/// Writes the word of a Request Authenticator.
#[tactic(auto, unfolding(crate::specs::Lines::authenticator_word))]
fn push_authenticator(out: &mut Vec<u8>, authenticator: &[u8]) -> Result<(), AllocError>
    ensures { OnOk result
        (out.new.items ≡ out.old.items ++ authenticator_word authenticator.now) }
{
    push_hex_word(out, "authenticator", authenticator)
}

/// Writes the words of the key of an Access-Request.
#[tactic(auto, unfolding(crate::specs::Lines::key_words))]
fn push_request(out: &mut Vec<u8>, key: &Key) -> Result<(), AllocError>
    ensures { OnOk result (out.new.items ≡ out.old.items ++ key_words key.now) }
{
    push_source(out, key.source)?;
    push_number_word(out, "id", u64::from(key.id))?;
    push_authenticator(out, &key.authenticator)?;
    Ok(())
}

/// Writes the word of an account.
fn push_account(out: &mut Vec<u8>, config: &Config, account: u32) -> Result<(), AllocError>
    requires { account < length config.now.accounts }
    ensures { OnOk result (out.new.items ≡ out.old.items ++ account_word config.now account) }
{
    push_octets_word(out, "account", config.entry(account).name.as_bytes())
}

/// Writes a word whose value is octets, if there are any.
fn push_octets_if(out: &mut Vec<u8>, key: &str, octets: &Option<Octets>) -> Result<(), AllocError>
    ensures { OnOk result (out.new.items ≡ out.old.items ++ word_if key.now escaped octets.now) }
{
    match octets {
        Some(octets) => push_octets_word(out, key, octets.as_slice()),
        None => Ok(()),
    }
}

/// Writes the word of an accept number, if there is one.
fn push_class(out: &mut Vec<u8>, class: Option<u64>) -> Result<(), AllocError>
    ensures { OnOk result (out.new.items ≡ out.old.items ++ word_if (codes "class") decimal class) }
{
    match class {
        Some(class) => push_number_word(out, "class", class),
        None => Ok(()),
    }
}

/// Writes an ask, from its verb on.
#[tactic(auto, unfolding(crate::specs::Lines::ask_text))]
fn push_ask(
    out: &mut Vec<u8>,
    config: &Config,
    account: u32,
    key: &Key,
    nas: &Nas,
    station: &Option<Octets>,
) -> Result<(), AllocError>
    requires account { account < length config.now.accounts }
    requires client { nas.now.client < length config.now.clients }
    ensures { OnOk result (out.new.items ≡
        out.old.items ++ ask_text config.now account key.now nas.now station.now) }
{
    out.extend_from_slice(b"ask")?;
    push_account(out, config, account)?;
    push_nas(out, config, nas)?;
    push_request(out, key)?;
    push_octets_if(out, "station", station)
}

/// Writes what an alive says of its session.
fn push_session(
    out: &mut Vec<u8>,
    session: &Octets,
    bundle: &Option<Octets>,
    class: Option<u64>,
    station: &Option<Octets>,
) -> Result<(), AllocError>
    ensures { OnOk result (out.new.items ≡
        out.old.items ++ session_words session.now bundle.now class station.now) }
{
    push_octets_word(out, "session", session.as_slice())?;
    push_octets_if(out, "bundle", bundle)?;
    push_class(out, class)?;
    push_octets_if(out, "station", station)
}

/// Writes an own move, from its verb on.
fn push_act(
    out: &mut Vec<u8>,
    config: &Config,
    account: u32,
    moment: u64,
    act: &Act,
) -> Result<(), AllocError>
    requires { OwnFits (counts_of config.now) account moment act.now }
    ensures { OnOk result (out.new.items ≡ out.old.items ++ act_text config.now account act.now) }
{
    match act {
        Act::Ask { key, nas, station } => push_ask(out, config, account, key, nas, station),
        Act::Alive {
            nas,
            session,
            bundle,
            class,
            station,
        } => {
            out.extend_from_slice(b"alive")?;
            push_account(out, config, account)?;
            push_nas(out, config, nas)?;
            push_session(out, session, bundle, *class, station)
        }
        Act::Stop { nas, session } => {
            out.extend_from_slice(b"stop")?;
            push_account(out, config, account)?;
            push_nas(out, config, nas)?;
            push_octets_word(out, "session", session.as_slice())
        }
        Act::Sweep { .. } | Act::Tick => unreachable!(),
    }
}

/// Writes the words of a stray packet.
fn push_note(out: &mut Vec<u8>, config: &Config, note: &Note) -> Result<(), AllocError>
    requires { note.now.nas.client < length config.now.clients }
    ensures { OnOk result (out.new.items ≡ out.old.items ++ note_words config.now note.now) }
{
    push_nas(out, config, &note.nas)?;
    push_number_word(out, "status", u64::from(note.status))?;
    push_octets_word(out, "name", note.name.as_slice())?;
    push_octets_word(out, "session", note.session.as_slice())
}

/// Writes by how many seconds a restart was told late, if it was.
fn push_delay(out: &mut Vec<u8>, delay: u64) -> Result<(), AllocError>
    ensures { OnOk result (out.new.items ≡ out.old.items ++ delay_word delay) }
{
    if delay == 0 {
        Ok(())
    } else {
        push_number_word(out, "delay", delay)
    }
}

/// Writes a move, from its verb on.
#[tactic(auto, unfolding(crate::specs::Lines::move_text))]
pub(crate) fn push_move(out: &mut Vec<u8>, config: &Config, moved: &Move) -> Result<(), AllocError>
    requires { MoveFits (counts_of config.now) moved.now }
    ensures { OnOk result (out.new.items ≡ out.old.items ++ move_text config.now moved.now) }
{
    match moved {
        Move::Own { account, event } => {
            push_act(out, config, *account, event.moment, &event.act)
        }
        Move::Sweep { nas, delay, .. } => {
            out.extend_from_slice(b"restart")?;
            push_nas(out, config, nas)?;
            push_delay(out, *delay)
        }
        Move::Tick { .. } => out.extend_from_slice(b"tick"),
        Move::Stray { note, .. } => {
            out.extend_from_slice(b"stray")?;
            push_note(out, config, note)
        }
    }
}
