// What a rebuild answers.
use mdbox_base::Seq;
use rebuild_files::RebuildError;
use rebuild_judge::SkippedAt;

/// What a rebuild made, and what it skipped: the number of mailboxes, that of messages in all of them, and the places of storage
/// files that were skipped, in the order in which they were found.
#[derive(Drop)]
pub struct RebuildReport {
    pub mailboxes: u64,
    pub messages: u64,
    pub skipped: Seq<SkippedAt>,
}

/// The disk with the rebuilt store, and the report.
pub struct RebuiltStore<D> {
    pub disk: D,
    pub report: RebuildReport,
}

/// Why a store was not rebuilt, and its disk.
pub struct RebuildRefused<D> {
    pub error: RebuildError,
    pub disk: D,
}
