//! The lines of the newest heads.

ghost use Rattle.std.specs.Prelude.{◌≡◌, ◌⊎◌, ◌≤◌, ◌/◌, true, false, IfOk, IfSome, IsTrue};
ghost use Rattle.std.specs.Io.KnownBytes.{Appends};
ghost use Rattle.head_log.specs.declared.head.Head.{Head};
ghost use Rattle.head_log.specs.Line.{closing_text, due_text};

use crate::head::Head;
use crate::head_file::HeadFile;
use crate::newest::Newest;
use sef_moment::Moment;
use std::alloc::{AllocError, Global};
use std::io::Write;
use std::sync::Arc;
use std::sync::atomic::{AtomicU64, Ordering};

/// Whether a line could not be written.
#[derive(Drop)]
pub struct Trouble {
    has_come: AtomicU64,
}

impl Trouble {
    fn new() -> Trouble {
        Trouble {
            has_come: AtomicU64::new(0),
        }
    }

    fn note(&self) {
        self.has_come.store(1, Ordering::SeqCst);
    }

    pub fn has_come(&self) -> bool {
        self.has_come.load(Ordering::SeqCst) != 0
    }
}

/// Writes the line of the newest head, at most one in a second.
#[derive(Drop)]
pub struct HeadReport<W: Drop> {
    pub(crate) file: HeadFile<W>,
    newest: Newest,
    /// The second of the last line.
    pub(crate) second: u64,
    /// A line could not be written.
    has_failed: bool,
    trouble: Arc<Trouble>,
}

impl<W: Write + Drop> HeadReport<W> {
    /// A report of the heads that come, at the end of what was written before, whose last line may have no end.
    pub fn new(
        alloc: Global,
        out: W,
        is_torn: bool,
        newest: Newest,
    ) -> Result<HeadReport<W>, AllocError>
        ensures out { IfOk result (λ r. r.file.out ≡ out) }
        ensures new { IfOk result (λ r. (r.file.last ≡ 0) × (r.file.is_torn ≡ is_torn) × (r.has_failed ≡ false)) }
    {
        let trouble = Arc::new(alloc, Trouble::new())?;
        Ok(HeadReport {
            file: HeadFile::new(alloc, out, is_torn),
            newest,
            second: 0,
            has_failed: false,
            trouble,
        })
    }

    /// Whether a line could not be written, for another thread.
    pub fn trouble(&self) -> Result<Arc<Trouble>, AllocError> {
        Arc::try_clone(&self.trouble)
    }

    /// Writes the line of the newest head, unless it is written, or one was in the second of this moment.
    pub(crate) fn report(&mut self, moment: Moment)
        ensures once { moment / 1_000 ≡ self.old.second → self.new.file ≡ self.old.file }
        ensures second { (self.new.file ≡ self.old.file) ⊎ (self.new.second ≡ moment / 1_000) }
        ensures written { self.new.has_failed ≡ false → (self.new.file ≡ self.old.file) ⊎ ((h : Head) × Appends (W.contents self.old.file.out) (W.contents self.new.file.out) (due_text self.old.file.is_torn self.old.file.last h)) }
        ensures rises { self.old.file.last ≤ self.new.file.last }
    {
        let second = moment.ms() / 1_000;
        if second == self.second {
            return;
        }
        if let Some(head) = self.newest.get() {
            self.write_at(second, &head);
        }
    }

    /// Writes the line of a head in a second, unless it is written.
    fn write_at(&mut self, second: u64, head: &Head)
        ensures second { (self.new.file ≡ self.old.file) ⊎ (self.new.second ≡ second) }
        ensures written { self.new.has_failed ≡ false → Appends (W.contents self.old.file.out) (W.contents self.new.file.out) (due_text self.old.file.is_torn self.old.file.last head.now) }
        ensures rises { self.old.file.last ≤ self.new.file.last }
    {
        if self.file.lacks(head) {
            self.second = second;
            self.write(head);
        }
    }

    /// Writes the line of a head, unless it is written.
    fn write(&mut self, head: &Head)
        ensures written { self.new.has_failed ≡ false → Appends (W.contents self.old.file.out) (W.contents self.new.file.out) (due_text self.old.file.is_torn self.old.file.last head.now) }
        ensures reached { self.new.has_failed ≡ false → head.now.n ≤ self.new.file.last }
        ensures whole { self.new.has_failed ≡ false → self.old.has_failed ≡ false }
        ensures second { self.new.second ≡ self.old.second }
        ensures rises { self.old.file.last ≤ self.new.file.last }
    {
        if !self.file.catch_up(head) {
            self.has_failed = true;
            self.trouble.note();
        }
    }

    /// Writes the line of the newest head, unless it is written.
    pub(crate) fn report_newest(&mut self)
        ensures written { self.new.has_failed ≡ false → (self.new.file ≡ self.old.file) ⊎ ((h : Head) × Appends (W.contents self.old.file.out) (W.contents self.new.file.out) (due_text self.old.file.is_torn self.old.file.last h)) }
        ensures rises { self.old.file.last ≤ self.new.file.last }
    {
        if let Some(head) = self.newest.get() {
            self.write(&head);
        }
    }

    /// Writes the line of the last head, unless it is written. Whether each line was.
    pub fn close(&mut self, last: Option<Head>) -> bool
        ensures last { IsTrue result → IfSome last (λ head. head.n ≤ self.new.file.last) }
        ensures written { IsTrue result → Appends (W.contents self.old.file.out) (W.contents self.new.file.out) (closing_text self.old.file.is_torn self.old.file.last last) }
        ensures whole { IsTrue result → self.old.has_failed ≡ false }
        ensures missing { result ≡ false → self.new.has_failed ≡ true }
        ensures rises { self.old.file.last ≤ self.new.file.last }
    {
        if let Some(head) = last {
            self.write(&head);
        }
        !self.has_failed
    }
}
