//! Datagrams that access servers send, and the answers to them, as words.

use rsl_account_file::read_config;
use rsl_accounts::Config;
use rsl_reply::Dictionary;
use std::alloc::Global;
use std::test::Fail;

/// `shards` shards, the client whose datagrams come, and the account of RFC 2865 section 7.1 with
/// one place.
pub fn config_of(alloc: Global, shards: &str) -> Result<Config, Fail> {
    let text = format!(in alloc;
        "version = 1\nshards = {shards}\nreserve_secs = 60\nlive_secs = 900\ngrace_secs = 900\n\
         closed_secs = 3600\nkeep_secs = 10\n\
         client = [{{ address = \"192.168.1.16\", secret = \"xyzzy5461\" }}]\n\
         account = [{{ name = \"nemo\", password = \"arctangent\", places = 1, ports = 1 }}]\n"
    )?;
    Ok(read_config(alloc, &Dictionary::new(alloc), text.as_bytes())?)
}

/// The octets of a datagram that comes. `ask` is the request of RFC 2865 section 7.1, of which
/// `wrong` has another password, `half` only the first octets and `long` 5,000 octets of padding. The accounting requests tell of
/// the session `s1` at the access server `n`, `stray` for a user that is no account's, and but for
/// `forged` they have the right Request Authenticator.
pub fn digits_of(word: &str) -> Result<&'static str, Fail> {
    match word {
        "ask" => Ok(
            "010000380f403f9473978057bd83d5cb98f4227a01066e656d6f0212\
            0dbe708d93d413ce3196e43f782a0aee0406c0a80110050600000003",
        ),
        "wrong" => Ok(
            "010000380f403f9473978057bd83d5cb98f4227a01066e656d6f0212\
            0dbe708d93d413ce3196e43f782a0aef0406c0a80110050600000003",
        ),
        "half" => Ok("010000380f403f9473978057bd83d5cb98f4227a01066e656d6f0212"),
        "long" => Ok(
            "010000380f403f9473978057bd83d5cb98f4227a01066e656d6f0212\
            0dbe708d93d413ce3196e43f782a0aee0406c0a80110050600000003 00*5000",
        ),
        "bare" => Ok("01070016 00*16 0101"),
        "short" => Ok("00*19"),
        "start" => Ok(
            "040100271bc0598f78c6bfdd1ee7d49c16e34dad\
            01066e656d6f28060000000120036e2c047331",
        ),
        "interim" => Ok(
            "04060027ab31cacf98517076f85d276dc4d3232a\
            01066e656d6f28060000000320036e2c047331",
        ),
        "stop" => Ok(
            "04020027bab87e13b927130f050d919408f5df77\
            01066e656d6f28060000000220036e2c047331",
        ),
        "on" => Ok("0403001d98c2bb04b7ab8b17050b05ecc085e02628060000000720036e"),
        "stray" => Ok(
            "0404002860a8351d6e1eabb037430d1d8c0f237d\
            010767686f737428060000000120036e2c047331",
        ),
        "forged" => Ok("0405001d 00*16 28060000000720036e"),
        _ => Err("an unknown datagram")?,
    }
}

/// What a reply says, by its octets; of other octets their digits.
pub fn reply_of(digits: &str) -> &str {
    match digits {
        "0200002c7fa85d1b244f70f55c748cf7f4494287\
        1912000000000000000100000000000000003e0600000001" => "accept",
        "0300002b7fd581ea748d151b6509911236d3d392\
        121753657373696f6e206c696d69742072656163686564" => "limit",
        "03000014072453aba835418a6fe17de435de3db1" => "reject",
        "03070014f7736c975c3d2175bb9feeadefc4ca84" => "bare",
        "0501001497bed1c0bbceaa984e5e8dcfbab0afc6" => "start",
        "05060014749d955b49b34fc210d5e51444e5010f" => "interim",
        "050200147c4b469335bdf36d7cc3bf73c61963a0" => "stop",
        "05030014b29d7a559f9a9317572e3a63b55e3f69" => "on",
        "050400145f2d016a7e7c5c0052e22a21467a1f70" => "stray",
        _ => digits,
    }
}
