ghost use Rattle.std.specs.Prelude.{◌≡◌, IsTrue};
ghost use Rattle.http_header.specs.FieldValue.{is_visible_text};
ghost use Rattle.rld_web.specs.Path.{media_type_of, path_of};

/// The paths of a server.
#[derive(Clone, Copy)]
pub(crate) enum Path {
    /// The page for a browser.
    Page,
    /// The metrics, for Prometheus.
    Metrics,
    /// The accounts, as JSON.
    Accounts,
    /// Whether the server is well.
    Health,
}

impl Path {
    /// The path of a request, or `None` if it is unknown.
    pub(crate) fn of(path: &str) -> Option<Path>
        ensures { result ≡ path_of path.now }
    {
        if path == "/" {
            Some(Path::Page)
        } else if path == "/metrics" {
            Some(Path::Metrics)
        } else if path == "/accounts.json" {
            Some(Path::Accounts)
        } else if path == "/health" {
            Some(Path::Health)
        } else {
            None
        }
    }

    /// The media type of its text.
    pub(crate) fn media_type(self) -> &'static str
        ensures value { result.now ≡ media_type_of self }
        ensures visible { IsTrue (is_visible_text result.now) }
    {
        match self {
            Path::Page => "text/html; charset=utf-8",
            Path::Metrics => "text/plain; version=0.0.4; charset=utf-8",
            Path::Accounts => "application/json",
            Path::Health => "text/plain; charset=utf-8",
        }
    }
}
