//! Names of attributes of the Wi-Fi Alliance's WISPr.

use rsl_reply::{AttributeRow, Form};

/// The attributes.
pub(crate) const ATTRIBUTES: [AttributeRow; 11] = [
    ("WISPr-Location-ID", 14122, 1, Form::Text),
    ("WISPr-Location-Name", 14122, 2, Form::Text),
    ("WISPr-Logoff-URL", 14122, 3, Form::Text),
    ("WISPr-Redirection-URL", 14122, 4, Form::Text),
    ("WISPr-Bandwidth-Min-Up", 14122, 5, Form::Number),
    ("WISPr-Bandwidth-Min-Down", 14122, 6, Form::Number),
    ("WISPr-Bandwidth-Max-Up", 14122, 7, Form::Number),
    ("WISPr-Bandwidth-Max-Down", 14122, 8, Form::Number),
    ("WISPr-Session-Terminate-Time", 14122, 9, Form::Text),
    ("WISPr-Session-Terminate-End-Of-Day", 14122, 10, Form::Text),
    ("WISPr-Billing-Class-Of-Service", 14122, 11, Form::Text),
];
