ghost use Rattle.std.specs.Prelude.{◌≡◌, map};
ghost use Rattle.capture_summary.specs.Files.{no_files, with_file};

use crate::FileCount;
use arrayvec::ArrayVec;
use std::marker::Model;

/// The greatest number of captures with a row in the table of files. Further captures are counted together.
pub const MAX_FILES: usize = 64;

/// A row of the table of files.
#[derive(Clone, Copy, Default)]
pub struct FileRow<'a> {
    /// The name of the capture.
    pub name: &'a str,
    /// The counted packets of the capture.
    pub count: FileCount,
}

/// The table of files: a row for each of the first `MAX_FILES` captures, in the order in which they were read. The captures after them are
/// counted together.
#[derive(Drop)]
pub struct FileTable<'a> {
    rows: ArrayVec<FileRow<'a>, MAX_FILES>,
    other_files: u64,
    others: FileCount,
}

impl<'a> Model for FileTable<'a> {
    ghost use Rattle.std.specs.Prelude.{map};
    ghost use Rattle.capture_summary.specs.Files.{Files};

    ghost Value = { Files };

    ghost view = { λ table. record {
      rows = map (λ row. (row.name.now, row.count)) table.rows.items;
      other_files = table.other_files;
      others = table.others;
    } };
}

impl<'a> FileTable<'a> {
    /// A table without captures.
    pub fn new() -> FileTable<'a>
        ensures { result ≡ no_files }
    {
        FileTable {
            rows: ArrayVec::new(),
            other_files: 0,
            others: FileCount::NONE,
        }
    }

    /// Adds a capture with this name and these counts. It has a row if the table has fewer than `MAX_FILES` rows.
    pub fn add(&mut self, name: &'a str, count: FileCount)
        ensures { self.new ≡ with_file name.now count self.old }
    {
        if self.rows.is_full() {
            self.other_files = self.other_files.saturating_add(1);
            self.others = self.others.plus(count);
        } else {
            self.rows.push(FileRow { name, count });
        }
    }

    /// The rows of the table.
    pub fn rows(&self) -> &[FileRow<'a>]
        ensures { map (λ row. (row.name.now, row.count)) result.now ≡ self.now.rows }
    {
        self.rows.as_slice()
    }

    /// The number of captures without a row. It saturates at `u64::MAX`.
    pub fn other_files(&self) -> u64
        ensures { result ≡ self.now.other_files }
    {
        self.other_files
    }

    /// The packets of the captures without a row. Each number saturates at `u64::MAX`.
    pub fn others(&self) -> FileCount
        ensures { result ≡ self.now.others }
    {
        self.others
    }
}
