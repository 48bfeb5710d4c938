//! Names of MikroTik's attributes.

use rsl_reply::{AttributeRow, Form, ValueRow};

/// The attributes.
pub(crate) const ATTRIBUTES: [AttributeRow; 32] = [
    ("Mikrotik-Recv-Limit", 14988, 1, Form::Number),
    ("Mikrotik-Xmit-Limit", 14988, 2, Form::Number),
    ("Mikrotik-Group", 14988, 3, Form::Text),
    ("Mikrotik-Wireless-Forward", 14988, 4, Form::Number),
    ("Mikrotik-Wireless-Skip-Dot1x", 14988, 5, Form::Number),
    ("Mikrotik-Wireless-Enc-Algo", 14988, 6, Form::Number),
    ("Mikrotik-Wireless-Enc-Key", 14988, 7, Form::Text),
    ("Mikrotik-Rate-Limit", 14988, 8, Form::Text),
    ("Mikrotik-Realm", 14988, 9, Form::Text),
    ("Mikrotik-Host-IP", 14988, 10, Form::Ipv4),
    ("Mikrotik-Mark-Id", 14988, 11, Form::Text),
    ("Mikrotik-Advertise-URL", 14988, 12, Form::Text),
    ("Mikrotik-Advertise-Interval", 14988, 13, Form::Number),
    ("Mikrotik-Recv-Limit-Gigawords", 14988, 14, Form::Number),
    ("Mikrotik-Xmit-Limit-Gigawords", 14988, 15, Form::Number),
    ("Mikrotik-Wireless-PSK", 14988, 16, Form::Text),
    ("Mikrotik-Total-Limit", 14988, 17, Form::Number),
    ("Mikrotik-Total-Limit-Gigawords", 14988, 18, Form::Number),
    ("Mikrotik-Address-List", 14988, 19, Form::Text),
    ("Mikrotik-Wireless-MPKey", 14988, 20, Form::Text),
    ("Mikrotik-Wireless-Comment", 14988, 21, Form::Text),
    ("Mikrotik-Delegated-IPv6-Pool", 14988, 22, Form::Text),
    ("Mikrotik-DHCP-Option-Set", 14988, 23, Form::Text),
    ("Mikrotik-DHCP-Option-Param-STR1", 14988, 24, Form::Text),
    ("Mikrotik-DHCP-Option-Param-STR2", 14988, 25, Form::Text),
    ("Mikrotik-DHCP-Option-ParamSTR2", 14988, 25, Form::Text),
    ("Mikrotik-Wireless-VLANID", 14988, 26, Form::Number),
    ("Mikrotik-Wireless-VLANIDtype", 14988, 27, Form::Number),
    ("Mikrotik-Wireless-VLANID-Type", 14988, 27, Form::Number),
    ("Mikrotik-Wireless-Minsignal", 14988, 28, Form::Text),
    ("Mikrotik-Wireless-Maxsignal", 14988, 29, Form::Text),
    ("Mikrotik-Switching-Filter", 14988, 30, Form::Text),
];

/// The names of values, each under its attribute.
pub(crate) const VALUES: [ValueRow; 7] = [
    // Mikrotik-Wireless-Enc-Algo.
    (14988, 6, "No-encryption", 0),
    (14988, 6, "40-bit-WEP", 1),
    (14988, 6, "104-bit-WEP", 2),
    (14988, 6, "AES-CCM", 3),
    (14988, 6, "TKIP", 4),
    // Mikrotik-Wireless-VLANIDtype.
    (14988, 27, "802.1q", 0),
    (14988, 27, "802.1ad", 1),
];
