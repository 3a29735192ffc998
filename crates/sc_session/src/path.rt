ghost use Rattle.std.specs.Prelude.{◌≡◌};
ghost use Rattle.sc_session.specs.Requests.{served_path};

/// A path that is served.
#[derive(Clone, Copy, Debug)]
pub(crate) enum Path {
    /// Updates, under either of their two names.
    Update,
    /// The last writes of ids.
    Get,
    /// Searches.
    Select,
    /// Commands to the collection itself.
    Collections,
}

impl Path {
    /// The path that the text is, where it is served.
    pub(crate) fn of(text: &str) -> Option<Path>
        ensures { result ≡ served_path text.now }
    {
        match text {
            "/solr/docs/update" | "/solr/docs/update/json" => Some(Path::Update),
            "/solr/docs/get" => Some(Path::Get),
            "/solr/docs/select" => Some(Path::Select),
            "/solr/admin/collections" => Some(Path::Collections),
            _ => None,
        }
    }
}
