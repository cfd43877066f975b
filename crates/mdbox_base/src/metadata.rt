// References to attachments that are stored outside a message.
use crate::ids::{Hash, InstId};

/// How base64 text is broken into lines: the characters of a line, a multiple of 4 from 4 to 996, and whether
/// lines end with CRLF.
#[derive(Clone, Copy, Debug, PartialEq, Eq)]
pub struct LineForm {
    pub length: u16,
    pub crlf: bool,
}

/// A reference to an attachment that is stored outside: the range of the whole message that its text fills
/// (in octets), the form of that text (None where it is the instance itself), and the instance.
#[derive(Clone, Copy, Debug, PartialEq, Eq)]
pub struct ExtRef {
    pub start: u32,
    pub count: u32,
    pub form: Option<LineForm>,
    pub hash: Hash,
    pub id: InstId,
}
