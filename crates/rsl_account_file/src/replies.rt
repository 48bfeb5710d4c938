//! The reply attributes of a file: its profiles, and what each account has.
ghost use Rattle.std.specs.Prelude.{
  ◌≡◌,
  ◌≢◌,
  ◌++◌,
  [],
  Err,
  IfErr,
  IfOk,
  Ok,
  OnOk,
  map,
  option_map,
  unwrap_or,
};
ghost use Rattle.std.specs.List.{flat_map, list_all, list_any};
ghost use Rattle.toml.specs.View.{table_view, view};
ghost use Rattle.rsl_account_file.specs.Common.{octets_of};
ghost use Rattle.rsl_account_file.specs.File.{
  joined,
  member_in,
  own_reply,
  port_limit_in,
  profile_in,
  profile_named,
  profile_of,
  profiles_from,
  profiles_of,
  replies_from,
  reply_in,
  reply_item,
  reply_list,
  shared_in,
  short_reply,
  staying,
  stays,
  takes_place,
};

use crate::profile::{Profile, Shared};
use crate::table::{check_names, flag, member, present};
use rsl_accounts::{ConfigFault, Field, Part, REPLY_ROOM, Reply, Text, is_strict};
use rsl_reply::{Dictionary, ReplyAttribute, ReplyFault, read_attribute};
use rsl_wire::{NoMemory, Octets};
use std::alloc::Global;
use toml::{Table, Value};

/// What the head of a file has for its accounts, which only version 3 knows.
#[tactic(auto, unfolding(crate::specs::File::shared_in))]
pub(crate) fn shared<'a>(
    alloc: Global,
    names: &'a Dictionary,
    version: u64,
    file: &Value,
) -> Result<Shared<'a>, ConfigFault>
    ensures ok { IfOk result (λ shared. shared_in names.now version (view file.now) ≡ Ok shared) }
    ensures fault { IfErr result (λ fault. fault ≢ ConfigFault.NoMemory →
        shared_in names.now version (view file.now) ≡ Err fault) }
{
    if !is_strict(version) {
        return Ok(Shared::new(names, true, Vec::new(alloc)));
    }
    let port_limit = flag(file, Field::PortLimit, true)?;
    let profiles = profiles(alloc, version, names, member(file, Field::Profile))?;
    Ok(Shared::new(names, port_limit, profiles))
}

/// The profiles that a value is the table of, if there is one.
fn profiles(
    alloc: Global,
    version: u64,
    names: &Dictionary,
    value: Option<&Value>,
) -> Result<Vec<Profile>, ConfigFault>
    ensures ok { IfOk result (λ profiles.
        profiles_of version names.now (option_map (λ v. view v.now) value.entry) ≡ Ok profiles.items) }
    ensures fault { IfErr result (λ fault. fault ≢ ConfigFault.NoMemory →
        profiles_of version names.now (option_map (λ v. view v.now) value.entry) ≡ Err fault) }
{
    let Some(value) = value else {
        return Ok(Vec::new(alloc));
    };
    match value.as_table() {
        Some(table) => profiles_in(alloc, version, names, table),
        None => Err(ConfigFault::BadValue(Field::Profile)),
    }
}

/// The profiles of a table, in the order of their names.
fn profiles_in(
    alloc: Global,
    version: u64,
    names: &Dictionary,
    table: &Table,
) -> Result<Vec<Profile>, ConfigFault>
    ensures ok { IfOk result (λ profiles.
        profiles_from version names.now [] (table_view table.now) ≡ Ok profiles.items) }
    ensures fault { IfErr result (λ fault. fault ≢ ConfigFault.NoMemory →
        profiles_from version names.now [] (table_view table.now) ≡ Err fault) }
{
    let mut profiles = Vec::new(alloc);
    for (name, value) in table.iter() {
        profiles.push(profile(alloc, version, names, name.as_str(), value)?)?;
    }
    Ok(profiles)
}

/// The profile of a table with this name.
#[tactic(auto, unfolding(crate::specs::File::profile_in))]
fn profile(
    alloc: Global,
    version: u64,
    names: &Dictionary,
    name: &str,
    table: &Value,
) -> Result<Profile, ConfigFault>
    ensures ok { IfOk result (λ profile.
        profile_in version names.now name.now (view table.now) ≡ Ok profile) }
    ensures fault { IfErr result (λ fault. fault ≢ ConfigFault.NoMemory →
        profile_in version names.now name.now (view table.now) ≡ Err fault) }
{
    check_names(alloc, version, Part::Profile, table)?;
    let list = present(table, Field::Reply)?;
    let attributes = reply_list(alloc, names, Part::Profile, name, list)?;
    Ok(Profile::new(alloc, name, attributes)?)
}

/// The attributes that a list `reply` writes.
#[tactic(auto, unfolding(crate::specs::File::reply_list))]
fn reply_list(
    alloc: Global,
    names: &Dictionary,
    part: Part,
    name: &str,
    list: &Value,
) -> Result<Vec<ReplyAttribute>, ConfigFault>
    ensures ok { IfOk result (λ attributes.
        reply_list names.now part name.now (view list.now) ≡ Ok attributes.items) }
    ensures fault { IfErr result (λ fault. fault ≢ ConfigFault.NoMemory →
        reply_list names.now part name.now (view list.now) ≡ Err fault) }
{
    match list.as_array() {
        Some(items) => replies_of(alloc, names, part, name, items.as_slice()),
        None => Err(ConfigFault::BadValue(Field::Reply)),
    }
}

/// The attributes that the items of a list write.
fn replies_of(
    alloc: Global,
    names: &Dictionary,
    part: Part,
    name: &str,
    items: &[Value],
) -> Result<Vec<ReplyAttribute>, ConfigFault>
    ensures ok { IfOk result (λ attributes.
        replies_from names.now part name.now 1 [] (map view items.now) ≡ Ok attributes.items) }
    ensures fault { IfErr result (λ fault. fault ≢ ConfigFault.NoMemory →
        replies_from names.now part name.now 1 [] (map view items.now) ≡ Err fault) }
{
    let mut attributes = Vec::new(alloc);
    let mut place = 1u64;
    for item in items {
        attributes.push(reply_item(alloc, names, part, name, place, item)?)?;
        place += 1;
    }
    Ok(attributes)
}

/// The attribute that the item at this place writes.
fn reply_item(
    alloc: Global,
    names: &Dictionary,
    part: Part,
    name: &str,
    place: u64,
    item: &Value,
) -> Result<ReplyAttribute, ConfigFault>
    ensures ok { IfOk result (λ attribute.
        reply_item names.now part name.now place (view item.now) ≡ Ok attribute) }
    ensures fault { IfErr result (λ fault. fault ≢ ConfigFault.NoMemory →
        reply_item names.now part name.now place (view item.now) ≡ Err fault) }
{
    let Some(text) = item.as_str() else {
        return Err(bad_reply(alloc, part, name, place, ReplyFault::NotText));
    };
    match read_attribute(alloc, names, text) {
        Ok(attribute) => Ok(attribute),
        Err(ReplyFault::NoMemory) => Err(ConfigFault::NoMemory),
        Err(fault) => Err(bad_reply(alloc, part, name, place, fault)),
    }
}

/// `BadReply`, or `NoMemory` where memory for it is refused.
fn bad_reply(alloc: Global, part: Part, name: &str, place: u64, fault: ReplyFault) -> ConfigFault
    ensures { result ≢ ConfigFault.NoMemory →
        result ≡ ConfigFault.BadReply part name.now place fault }
{
    match Text::from_str(alloc, name) {
        Ok(name) => ConfigFault::BadReply(part, name, place, fault),
        Err(_) => ConfigFault::NoMemory,
    }
}

/// The first profile with a name.
fn profile_named<'a>(mut profiles: &'a [Profile], name: &str) -> Option<&'a Profile>
    ensures { option_map (λ profile. profile.now.attributes) result ≡
        profile_named profiles.entry.now name.now }
{
    while let [profile, rest @ ..] = profiles {
        if profile.name() == name {
            return Some(profile);
        }
        profiles = rest;
    }
    None
}

/// The profile of an account, if it has one.
fn profile_of<'a>(
    alloc: Global,
    profiles: &'a [Profile],
    account: &str,
    table: &Value,
) -> Result<Option<&'a Profile>, ConfigFault>
    ensures ok { IfOk result (λ profile.
        profile_of profiles.now account.now (member_in (view table.now) Field.Profile) ≡
        Ok (unwrap_or (option_map (λ profile. profile.now.attributes) profile) [])) }
    ensures fault { IfErr result (λ fault. fault ≢ ConfigFault.NoMemory →
        profile_of profiles.now account.now (member_in (view table.now) Field.Profile) ≡
        Err fault) }
{
    let Some(value) = member(table, Field::Profile) else {
        return Ok(None);
    };
    let Some(name) = value.as_str() else {
        return Err(ConfigFault::BadValue(Field::Profile));
    };
    match profile_named(profiles, name) {
        Some(profile) => Ok(Some(profile)),
        None => Err(ConfigFault::UnknownProfile(Text::from_str(alloc, account)?)),
    }
}

/// An account's own attributes.
fn own_reply(
    alloc: Global,
    names: &Dictionary,
    account: &str,
    table: &Value,
) -> Result<Vec<ReplyAttribute>, ConfigFault>
    ensures ok { IfOk result (λ own.
        own_reply names.now account.now (member_in (view table.now) Field.Reply) ≡ Ok own.items) }
    ensures fault { IfErr result (λ fault. fault ≢ ConfigFault.NoMemory →
        own_reply names.now account.now (member_in (view table.now) Field.Reply) ≡ Err fault) }
{
    match member(table, Field::Reply) {
        Some(value) => reply_list(alloc, names, Part::Account, account, value),
        None => Ok(Vec::new(alloc)),
    }
}

/// The reply attributes of an account: those of its profile that none of its own takes the place of, and then
/// its own. Only version 3 knows them. The profile is looked at first.
#[tactic(auto, unfolding(crate::specs::File::reply_in))]
pub(crate) fn reply(
    alloc: Global,
    version: u64,
    shared: &Shared<'_>,
    account: &str,
    table: &Value,
) -> Result<Reply, ConfigFault>
    ensures ok { IfOk result (λ reply.
        reply_in version shared.now account.now (view table.now) ≡ Ok reply) }
    ensures fault { IfErr result (λ fault. fault ≢ ConfigFault.NoMemory →
        reply_in version shared.now account.now (view table.now) ≡ Err fault) }
{
    if !is_strict(version) {
        return Ok(Reply::none());
    }
    let profile = profile_of(alloc, shared.profiles(), account, table)?;
    let own = own_reply(alloc, shared.names(), account, table)?;
    let reply = joined(alloc, profile, own.as_slice())?;
    short_reply(alloc, account, reply)
}

// ---- a profile's attributes and an account's own

/// The attributes of a profile that stay beside an account's own, and these.
fn joined(
    alloc: Global,
    profile: Option<&Profile>,
    own: &[ReplyAttribute],
) -> Result<Reply, NoMemory>
    ensures { IfOk result (λ reply. reply ≡
        joined (unwrap_or (option_map (λ profile. profile.now.attributes) profile.entry) []) own.now) }
{
    match profile {
        Some(profile) => with_profile(alloc, profile, own),
        None => Ok(Reply::of(None, own_octets(alloc, own)?)),
    }
}

/// The attributes of this profile that stay beside an account's own, and these. The account shares the
/// profile's octets where all stay.
#[tactic(auto, using(crate::proofs::Staying::staying_all))]
fn with_profile(alloc: Global, profile: &Profile, own: &[ReplyAttribute]) -> Result<Reply, NoMemory>
    ensures { IfOk result (λ reply. reply ≡ joined profile.now.attributes own.now) }
{
    if all_stay(own, profile.attributes()) {
        return Ok(Reply::of(Some(profile.share()?), own_octets(alloc, own)?));
    }
    let mut octets = Vec::new(alloc);
    push_staying(&mut octets, own, profile.attributes())?;
    push_octets(&mut octets, own)?;
    Ok(Reply::of(None, Some(Octets::from_slice(alloc, octets.as_slice())?)))
}

/// Whether all of a profile's attributes stay beside an account's own.
fn all_stay(own: &[ReplyAttribute], front: &[ReplyAttribute]) -> bool
    ensures { result ≡ list_all (stays own.now) front.now }
{
    front.iter().all(|attribute| stays(own, attribute))
}

/// Whether a profile's attribute stays beside an account's own: none of these takes its place.
fn stays(own: &[ReplyAttribute], attribute: &ReplyAttribute) -> bool
    ensures { result ≡ stays own.now attribute.now }
{
    !is_replaced(own, attribute)
}

/// Whether one of an account's own attributes takes the place of a profile's.
fn is_replaced(own: &[ReplyAttribute], attribute: &ReplyAttribute) -> bool
    ensures { result ≡ list_any (takes_place attribute.now) own.now }
{
    own.iter().any(|one| takes_place(attribute, one))
}

/// Whether an account's attribute takes the place of a profile's: it is of the same name, and not added.
fn takes_place(attribute: &ReplyAttribute, own: &ReplyAttribute) -> bool
    ensures { result ≡ takes_place attribute.now own.now }
{
    !own.adds && own.target.is_same(attribute.target)
}

/// Adds the octets of those of a profile's attributes that stay.
fn push_staying(
    octets: &mut Vec<u8>,
    own: &[ReplyAttribute],
    mut front: &[ReplyAttribute],
) -> Result<(), NoMemory>
    ensures { OnOk result (octets.new.items ≡
        octets.old.items ++ flat_map (staying own.now) front.entry.now) }
{
    while let [attribute, rest @ ..] = front {
        if stays(own, attribute) {
            octets.extend_from_slice(attribute.octets.as_slice())?;
        }
        front = rest;
    }
    Ok(())
}

/// Adds the octets of attributes.
fn push_octets(octets: &mut Vec<u8>, mut attributes: &[ReplyAttribute]) -> Result<(), NoMemory>
    ensures { OnOk result (octets.new.items ≡ octets.old.items ++ octets_of attributes.entry.now) }
{
    while let [attribute, rest @ ..] = attributes {
        octets.extend_from_slice(attribute.octets.as_slice())?;
        attributes = rest;
    }
    Ok(())
}

/// The octets of attributes, one after the other.
pub(crate) fn octets_of(alloc: Global, attributes: &[ReplyAttribute]) -> Result<Vec<u8>, NoMemory>
    ensures { IfOk result (λ octets. octets.items ≡ octets_of attributes.now) }
{
    let mut octets = Vec::new(alloc);
    push_octets(&mut octets, attributes)?;
    Ok(octets)
}

/// The octets of an account's own attributes, if it has any.
fn own_octets(alloc: Global, own: &[ReplyAttribute]) -> Result<Option<Octets>, NoMemory>
    ensures { IfOk result (λ octets. unwrap_or octets [] ≡ octets_of own.now) }
{
    if own.is_empty() {
        return Ok(None);
    }
    let octets = octets_of(alloc, own)?;
    Ok(Some(Octets::from_slice(alloc, octets.as_slice())?))
}

/// The reply attributes of an account, if they are not too long.
fn short_reply(alloc: Global, account: &str, reply: Reply) -> Result<Reply, ConfigFault>
    ensures ok { IfOk result (λ short. short_reply account.now reply ≡ Ok short) }
    ensures fault { IfErr result (λ fault. fault ≢ ConfigFault.NoMemory →
        short_reply account.now reply ≡ Err fault) }
{
    if reply.len() > REPLY_ROOM {
        return Err(ConfigFault::ReplyTooLong(Text::from_str(alloc, account)?));
    }
    Ok(reply)
}

/// Whether an account's accepts have a Port-Limit: as it says, and else as the head of the file says.
pub(crate) fn port_limit(version: u64, common: bool, table: &Value) -> Result<bool, ConfigFault>
    ensures { result ≡ port_limit_in version common (view table.now) }
{
    if is_strict(version) {
        flag(table, Field::PortLimit, common)
    } else {
        Ok(true)
    }
}
