//! On which line a text names what, however it is written.

use crate::texts::{edited, names, told};
use rld_faults::account_faults;
use rsl_account_file::read_config;
use std::alloc::Global;
use std::test::Fail;
use test_rows::{Subject, check_rows, shown};

/// What is said of a text alone.
struct Lines;

impl Subject for Lines {
    fn found(&self, alloc: Global, fields: &[&str]) -> Result<String, Fail> {
        let text = edited(alloc, "", fields)?;
        match read_config(alloc, &names(alloc)?, text.as_bytes()) {
            Ok(_) => shown(alloc, &"Ok"),
            Err(fault) => told(
                alloc,
                &account_faults(alloc, &names(alloc)?, text.as_bytes(), &fault)?,
            ),
        }
    }
}

#[test]
fn a_line_is_found_in_each_form(rt: HostRuntime) -> Result<(), Fail> {
    let rows = r#"
        lists in brackets | version = 3\nclient = [{ address = "192.0.2.1", secret = "a secret of 25 characters" }]\naccount = [\n  { name = "a", places = 1 },\n  { name = "b", places = 65 },\n] | :5: places of account b is 65; it is 0 to 64
        each key on a line | version = 3\nclient = [{ address = "192.0.2.1", secret = "a secret of 25 characters" }]\naccount = [{\nname = "a",\nplaces = 65 }] | :5: places of account a is 65; it is 0 to 64
        two on a line | version = 3\nclient = [{ address = "192.0.2.1", secret = "a secret of 25 characters" }]\naccount = [{ name = "a", places = 1 }, { name = "b",\nplaces = 65 }] | :4: places of account b is 65; it is 0 to 64
        without a key | version = 3\nclient = [{ address = "192.0.2.1", secret = "a secret of 25 characters" }]\naccount = [{ name = "a", places = 1 },\n { name = "b" }] | :4: places of account b is missing
        a key in quotation marks | version = 3\n"client" = [{ "address" = "192.0.2.1", 'secret' = "short" }]\n[["account"]]\n"name" = "a"\n'places' = 65 | :2: secret of client 192.0.2.1 has 5 octets; 16 or more / :5: places of account a is 65; it is 0 to 64
        signs in a string | version = 3\n[[client]]\naddress = "192.0.2.1" # ] } = "\nsecret = "a = # [ ] { } , \" of 25"\n[[account]]\nname = 'a"b'\nplaces = 65 | :7: places of account a"b is 65; it is 0 to 64
        a string of several lines | version = 3\n[[client]]\naddress = "192.0.2.1"\nsecret = """a secret\nof "" two\\\nlines ="""\n[[account]]\nname = "a"\npassword = '''x\n[[account]]\ny'''\nplaces = 65 | :12: places of account a is 65; it is 0 to 64
        one that ends in quotation marks | version = 3\n[[client]]\naddress = "192.0.2.1"\nsecret = """a secret of 25 letters"""""\n[[account]]\nname = "a"\nplaces = 65 | :7: places of account a is 65; it is 0 to 64
        an empty string | version = 3\n[[client]]\naddress = ""\nsecret = ''\n[[account]]\nname = "a"\nplaces = 1 | :3: address of client number 1 is ""; it is an IPv4 address, as "192.0.2.1" / :4: secret of client number 1 has 0 octets; 1 to 128
        a comment in a list | version = 3\n[[client]]\naddress = "192.0.2.1"\nsecret = "a secret of 25 characters"\n[[account]]\nname = "a"\nplaces = 1\nreply = [ # ]\n  # "x",\n  "x", # one\n  "y"] | :10: reply 1 of account a: no NAME = VALUE / :11: reply 2 of account a: no NAME = VALUE
        keys with dots | version = 3\n[[client]]\naddress = "192.0.2.1"\nsecret = "a secret of 25 characters"\ndisconnect . "port" = 0\n[[account]]\nname = "a"\nplaces = 1 | :5: port of disconnect of client 192.0.2.1 is 0; it is 1 to 65535
        a header with blanks | version = 3\n[[client]]\naddress = "192.0.2.1"\nsecret = "a secret of 25 characters"\n[ client . disconnect ] # [x]\nport = 0\n[[ account ]]\nname = "a"\nplaces = 1 | :6: port of disconnect of client 192.0.2.1 is 0; it is 1 to 65535
        the second client's table | version = 3\n[[client]]\naddress = "192.0.2.1"\nsecret = "a secret of 25 characters"\n[client.disconnect]\nport = 1\n[[client]]\naddress = "192.0.2.2"\nsecret = "a secret of 25 characters"\n[client.disconnect]\nport = 0\n[[account]]\nname = "a"\nplaces = 1 | :11: port of disconnect of client 192.0.2.2 is 0; it is 1 to 65535
    "#;
    check_rows(&rt, &Lines, rows)
}
