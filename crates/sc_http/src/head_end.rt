ghost use Rattle.std.specs.Prelude.{◌≡◌, ◌≤◌, ◌↔◌, IsTrue, fold, length, take};
ghost use Rattle.sc_http.specs.HeadEnd.{next_progress};

/// How far the search for the end of a head has come: a head ends at the first empty line after some text.
#[derive(Clone, Copy)]
pub(crate) enum HeadProgress {
    /// In the line ends before the head's text, which belong to it.
    Before,
    Text,
    /// After the end of a line.
    LineStart,
    /// After the end of a line and a carriage return.
    LineStartReturn,
    /// The end was found.
    End,
}

impl HeadProgress {
    /// The progress after one byte more.
    fn next(self, byte: u8) -> HeadProgress
        ensures { result ≡ next_progress self byte }
    {
        match (self, byte) {
            (HeadProgress::End, _) => HeadProgress::End,
            (HeadProgress::Before, b'\r' | b'\n') => HeadProgress::Before,
            (HeadProgress::LineStart | HeadProgress::LineStartReturn, b'\n') => HeadProgress::End,
            (_, b'\n') => HeadProgress::LineStart,
            (HeadProgress::LineStart, b'\r') => HeadProgress::LineStartReturn,
            _ => HeadProgress::Text,
        }
    }

    pub(crate) fn is_end(self) -> bool
        ensures { IsTrue result ↔ (self ≡ HeadProgress.End) }
    {
        matches!(self, HeadProgress::End)
    }

    /// The progress after these bytes. The search stops at the end of the head.
    pub(crate) fn after(self, bytes: &[u8]) -> HeadProgress
        ensures { result ≡ fold next_progress self bytes.now }
    {
        let mut progress = self;
        let mut at = 0;
        while at < bytes.len() {
            at += progress.stay(&bytes[at..]);
            if at == bytes.len() {
                return progress;
            }
            progress = progress.next(bytes[at]);
            at += 1;
            if let HeadProgress::End = progress {
                return HeadProgress::End;
            }
        }
        progress
    }

    /// How many of these bytes are passed over at once, since the progress stays the same after them.
    fn stay(self, bytes: &[u8]) -> usize
        ensures bound { result ≤ length bytes.now }
        ensures stays { fold next_progress self (take result bytes.now) ≡ self }
    {
        if let HeadProgress::Text = self {
            return text_length(bytes);
        }
        0
    }
}

/// How many bytes come before the first line feed.
fn text_length(bytes: &[u8]) -> usize
    ensures bound { result ≤ length bytes.now }
    ensures stays { fold next_progress HeadProgress.Text (take result bytes.now) ≡ HeadProgress.Text }
{
    let mut length = 0;
    while length < bytes.len() && bytes[length] != b'\n' {
        length += 1;
    }
    length
}
