//! Names of Juniper's attributes.

use rsl_reply::{AttributeRow, Form, ValueRow};

/// The attributes.
pub(crate) const ATTRIBUTES: [AttributeRow; 34] = [
    ("Juniper-Local-User-Name", 2636, 1, Form::Text),
    ("Juniper-Allow-Commands", 2636, 2, Form::Text),
    ("Juniper-Deny-Commands", 2636, 3, Form::Text),
    ("Juniper-Allow-Configuration", 2636, 4, Form::Text),
    ("Juniper-Deny-Configuration", 2636, 5, Form::Text),
    ("Juniper-Interactive-Command", 2636, 8, Form::Text),
    ("Juniper-Configuration-Change", 2636, 9, Form::Text),
    ("Juniper-User-Permissions", 2636, 10, Form::Text),
    ("Juniper-Junosspace-Profile", 2636, 11, Form::Text),
    ("Juniper-Junosspace-Profiles", 2636, 11, Form::Text),
    ("Juniper-CTP-Group", 2636, 21, Form::Number),
    ("Juniper-CTPView-APP-Group", 2636, 22, Form::Number),
    ("Juniper-CTPView-OS-Group", 2636, 23, Form::Number),
    ("Juniper-Primary-Dns", 2636, 31, Form::Ipv4),
    ("Juniper-Primary-Wins", 2636, 32, Form::Ipv4),
    ("Juniper-Secondary-Dns", 2636, 33, Form::Ipv4),
    ("Juniper-Secondary-Wins", 2636, 34, Form::Ipv4),
    ("Juniper-Interface-id", 2636, 35, Form::Text),
    ("Juniper-Ip-Pool-Name", 2636, 36, Form::Text),
    ("Juniper-Keep-Alive", 2636, 37, Form::Number),
    ("Juniper-CoS-Traffic-Control-Profile", 2636, 38, Form::Text),
    ("Juniper-CoS-Parameter", 2636, 39, Form::Text),
    ("Juniper-encapsulation-overhead", 2636, 40, Form::Number),
    ("Juniper-cell-overhead", 2636, 41, Form::Number),
    ("Juniper-tx-connect-speed", 2636, 42, Form::Number),
    ("Juniper-rx-connect-speed", 2636, 43, Form::Number),
    ("Juniper-Firewall-filter-name", 2636, 44, Form::Text),
    ("Juniper-Policer-Parameter", 2636, 45, Form::Text),
    ("Juniper-Local-Group-Name", 2636, 46, Form::Text),
    ("Juniper-Local-Interface", 2636, 47, Form::Text),
    ("Juniper-Switching-Filter", 2636, 48, Form::Text),
    ("Juniper-VoIP-Vlan", 2636, 49, Form::Text),
    ("Juniper-CWA-Redirect", 2636, 50, Form::Text),
    ("Juniper-AV-Pair", 2636, 52, Form::Text),
];

/// The names of values, each under its attribute.
pub(crate) const VALUES: [ValueRow; 10] = [
    // Juniper-CTP-Group.
    (2636, 21, "Read_Only", 1),
    (2636, 21, "Admin", 2),
    (2636, 21, "Privileged_Admin", 3),
    (2636, 21, "Auditor", 4),
    // Juniper-CTPView-APP-Group.
    (2636, 22, "Net_View", 1),
    (2636, 22, "Net_Admin", 2),
    (2636, 22, "Global_Admin", 3),
    // Juniper-CTPView-OS-Group.
    (2636, 23, "Web_Manager", 1),
    (2636, 23, "System_Admin", 2),
    (2636, 23, "Auditor", 3),
];
